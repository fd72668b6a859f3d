// The rule that weighs a step by the slots of its instruction.
ghost use Rattle.std.specs.Prelude.{◌≡◌, ◌<◌, ◌≤◌, true, false, length};
ghost use Rattle.plan.specs.Plans.{degree, edge_at, plan_of, steps};
ghost use Rattle.rules.specs.Charges.{straight};
ghost use Rattle.rules.specs.Slots.{slots_charge};
ghost use Rattle.rules.specs.Bounds.{slots_bound};
ghost use Rattle.std.proofs.Common.{rules};

use crate::others::other_steps;
use crate::rule::TurnRule;
use plan::Drawing;
use turns::Class;

// A junction that so many edges leave at most asks for no choice, and one that so many leave is a fork.
const NARROW: u32 = 2;

const FORK: u32 = 3;

/// Charges a straight step 1; any other 4 where one or two edges leave the junction, 6 where three leave it and none of them is straight ahead, and else 5
/// plus the number that leave it.
#[derive(Clone, Copy, PartialEq, Eq, Debug)]
pub struct Slots;

impl TurnRule for Slots {
    const MOST: u32 = 21;

    ghost MOST = { 21 };

    ghost charge = { λ rule p e f. slots_charge p e f };

    ghost bounded = { λ rule p e f s. slots_bound p e f s };

    ghost small = { Prim.search rules };

    ghost idle = { Prim.search rules };

    fn charge(&self, drawing: &Drawing<'_>, from: u32, to: u32) -> u32 {
        match drawing.step(from, to) {
            None => 0,
            Some(Class::Straight) => 1,
            Some(_) => turning_charge(drawing, from, to),
        }
    }
}

// The charge of a step that is not straight.
fn turning_charge(drawing: &Drawing<'_>, from: u32, to: u32) -> u32
    requires { (steps (plan_of drawing.now) from to ≡ true) × (straight (plan_of drawing.now) from to ≡ false) }
    ensures value { result ≡ slots_charge (plan_of drawing.now) from to }
{
    let degree = leaving(drawing, from);
    if degree <= NARROW {
        return 4;
    }
    if degree == FORK && other_steps(drawing, from, to, Class::Straight) == 0 {
        return 6;
    }
    5 + degree
}

// How many edges leave the junction at which an edge ends.
fn leaving(drawing: &Drawing<'_>, edge: u32) -> u32
    requires { edge < length (plan_of drawing.now).edges }
    ensures value { result ≡ degree (plan_of drawing.now) (edge_at (plan_of drawing.now) edge).end }
    ensures bound { result ≤ 16 }
{
    drawing.degree(u32::from(drawing.edges()[edge as usize].end))
}
