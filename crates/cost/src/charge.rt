// The kind of cost that adds up the charges.
ghost use Rattle.cost.specs.Charges.{charge_additions, charge_row};
ghost use Rattle.cost.specs.Rows.{zeros};
ghost use Rattle.std.specs.Prelude.{◌≡◌};
ghost use Rattle.std.proofs.Common.{rules};

use crate::measure::Measure;
use crate::reading::MOST_CHARGE;
use crate::sum::Sum;

/// Measures a step by its charge.
#[derive(Clone, Copy)]
pub struct Charges;

/// The sum of the charges.
pub type Charge = Sum<Charges>;

impl Sum<Charges> {
    /// The empty cost.
    pub fn new() -> Charge
        ensures count { charge_additions result ≡ 0 }
        ensures zero { charge_row result ≡ zeros 1 }
    {
        Sum::by(Charges)
    }
}

/// An addition adds its charge.
impl Measure for Charges {
    ghost Settings = { Unit {0} };

    ghost settings = { λ _. tt };

    ghost most = { λ s. 1000 };

    ghost amount = { λ s u d. u };

    ghost within = { Prim.search rules };

    ghost reached = { Prim.search rules };

    fn most(&self) -> u32 {
        MOST_CHARGE
    }

    fn amount(&self, charge: u32, length: u32) -> u64 {
        u64::from(charge)
    }
}
