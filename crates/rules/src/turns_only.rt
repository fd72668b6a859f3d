// The rule that counts turns.
ghost use Rattle.rules.specs.Turns.{turns_charge};
ghost use Rattle.rules.specs.Bounds.{turns_bound};
ghost use Rattle.std.proofs.Common.{rules};

use crate::rule::TurnRule;
use plan::Drawing;
use turns::Class;

/// Charges 1 for every step that is not straight.
#[derive(Clone, Copy, PartialEq, Eq, Debug)]
pub struct Turns;

impl TurnRule for Turns {
    const MOST: u32 = 1;

    ghost MOST = { 1 };

    ghost charge = { λ rule p e f. turns_charge p e f };

    ghost bounded = { λ rule p e f s. turns_bound p e f };

    ghost small = { Prim.search rules };

    ghost idle = { Prim.search rules };

    fn charge(&self, drawing: &Drawing<'_>, from: u32, to: u32) -> u32 {
        match drawing.step(from, to) {
            Some(Class::Straight) => 0,
            Some(_) => 1,
            None => 0,
        }
    }
}
