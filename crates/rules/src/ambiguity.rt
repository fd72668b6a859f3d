// The rule that counts how many other steps sound the same when they are explained.
ghost use Rattle.rules.specs.Ambiguity.{ambiguity_charge};
ghost use Rattle.rules.specs.Bounds.{ambiguity_bound};
ghost use Rattle.std.proofs.Common.{rules};

use crate::others::other_steps;
use crate::rule::TurnRule;
use plan::Drawing;

/// Charges a step for every other step out of the same edge in the same class.
#[derive(Clone, Copy, PartialEq, Eq, Debug)]
pub struct Ambiguity;

impl TurnRule for Ambiguity {
    const MOST: u32 = 15;

    ghost MOST = { 15 };

    ghost charge = { λ rule p e f. ambiguity_charge p e f };

    ghost bounded = { λ rule p e f s. ambiguity_bound p e f s };

    ghost small = { Prim.search rules };

    ghost idle = { Prim.search rules };

    fn charge(&self, drawing: &Drawing<'_>, from: u32, to: u32) -> u32 {
        match drawing.step(from, to) {
            Some(class) => other_steps(drawing, from, to, class),
            None => 0,
        }
    }
}
