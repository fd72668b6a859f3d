// The interface of all turn rules.
ghost use Rattle.std.specs.Prelude.{◌≡◌, ℕ, ◌≤◌, false};
ghost use Rattle.plan.specs.Plans.{Plan, Sound, plan_of, steps};

use plan::Drawing;

/// A turn rule gives one charge for a drawing and two edge numbers.
///
/// Its meaning is the ghost member `charge`, a function of the rule, the plan of the drawing and the two numbers alone. Whoever writes a rule shows that
/// a pair which is no step is charged 0 (`idle`), that no charge over a drawing exceeds the rule's own largest (`bounded`), and that this is at most 1,000
/// (`small`). Asking never refuses and changes nothing.
pub trait TurnRule {
    /// The largest charge of the rule.
    const MOST: u32;

    ghost MOST: { ℕ };

    ghost charge: { Self → Plan → ℕ → ℕ → ℕ };

    /// The largest charge, `MOST`, as a call.
    fn largest() -> u32
        ensures value { result ≡ MOST }
    {
        Self::MOST
    }

    /// The charge of the step from one edge to another, 0 where no step leads there.
    fn charge(&self, drawing: &Drawing<'_>, from: u32, to: u32) -> u32
        ensures value { result ≡ charge self.now (plan_of drawing.now) from to };

    ghost bounded: { (rule : Self) (p : Plan) (e f : ℕ) → Sound p → charge rule p e f ≤ MOST };

    ghost small: { MOST ≤ 1000 };

    ghost idle: { (rule : Self) (p : Plan) (e f : ℕ) → steps p e f ≡ false → charge rule p e f ≡ 0 };
}
