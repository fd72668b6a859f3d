// The kind of cost that adds up the lengths.
ghost use Rattle.cost.specs.Distances.{distance_additions, distance_row};
ghost use Rattle.cost.specs.Rows.{zeros};
ghost use Rattle.std.specs.Prelude.{◌≡◌};
ghost use Rattle.std.proofs.Common.{rules};

use crate::measure::Measure;
use crate::reading::MOST_LENGTH;
use crate::sum::Sum;

/// Measures a step by its length.
#[derive(Clone, Copy)]
pub struct Lengths;

/// The sum of the lengths.
pub type Distance = Sum<Lengths>;

impl Sum<Lengths> {
    /// The empty cost.
    pub fn new() -> Distance
        ensures count { distance_additions result ≡ 0 }
        ensures zero { distance_row result ≡ zeros 1 }
    {
        Sum::by(Lengths)
    }
}

/// An addition adds its length.
impl Measure for Lengths {
    ghost Settings = { Unit {0} };

    ghost settings = { λ _. tt };

    ghost most = { λ s. 100000 };

    ghost amount = { λ s u d. d };

    ghost within = { Prim.search rules };

    ghost reached = { Prim.search rules };

    fn most(&self) -> u32 {
        MOST_LENGTH
    }

    fn amount(&self, charge: u32, length: u32) -> u64 {
        u64::from(length)
    }
}
