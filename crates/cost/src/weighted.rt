// The kind of cost that adds up weighted lengths and charges.
ghost use Rattle.std.specs.Prelude.{◌≡◌, ◌+◌, ◌*◌, IfOk};
ghost use Rattle.std.proofs.Common.{add-le-add, mul-le-mul_left, rules};
ghost use Rattle.cost.specs.Rows.{zeros};
ghost use Rattle.cost.specs.Weights.{Weights, weights, weights_read, weight_fault, weighted_additions, weighted_most, weighted_row};
ghost use Rattle.std.specs.Result.{result_err};

use crate::fault::CostFault;
use crate::measure::Measure;
use crate::reading::{MOST_CHARGE, MOST_LENGTH};
use crate::sum::Sum;

/// The largest weight.
pub const MOST_WEIGHT: u32 = 100;

/// Measures a step by its length and its charge, each by its weight.
#[derive(Clone, Copy)]
pub struct Weighing {
    distance: u32,
    charge: u32,
}

/// The sum of the lengths and the charges, each by its weight.
pub type Weighted = Sum<Weighing>;

impl Sum<Weighing> {
    /// The empty cost with these weights; refuses a weight above 100, the distance weight first.
    pub fn new(wd: u32, wu: u32) -> Result<Weighted, CostFault>
        ensures refused { result_err result ≡ weight_fault wd wu }
        ensures same { IfOk result (λ c. weights c ≡ record { distance = wd; charge = wu }) }
        ensures count { IfOk result (λ c. weighted_additions c ≡ 0) }
        ensures zero { IfOk result (λ c. weighted_row c ≡ zeros 1) }
    {
        if wd > MOST_WEIGHT {
            return Err(CostFault::Weight(wd));
        }
        if wu > MOST_WEIGHT {
            return Err(CostFault::Weight(wu));
        }
        Ok(Sum::by(Weighing {
            distance: wd,
            charge: wu,
        }))
    }
}

/// An addition adds its length times the distance weight and its charge times the charge weight.
impl Measure for Weighing {
    ghost Settings = { Weights };

    ghost settings = { weights_read };

    ghost most = { weighted_most };

    ghost amount = { λ s u d. s.distance * d + s.charge * u };

    ghost within = { λ s u d h k. add-le-add (mul-le-mul_left s.distance k) (mul-le-mul_left s.charge h) };

    ghost reached = { Prim.search rules };

    fn read(&self) -> Weighing
        ensures same { weights_read result ≡ weights_read self.now }
        ensures distance { result.distance ≡ (weights_read self.now).distance }
        ensures charge { result.charge ≡ (weights_read self.now).charge }
    {
        Weighing {
            distance: self.distance.min(MOST_WEIGHT),
            charge: self.charge.min(MOST_WEIGHT),
        }
    }

    fn most(&self) -> u32 {
        let Weighing { distance, charge } = self.read();
        distance * MOST_LENGTH + charge * MOST_CHARGE
    }

    fn amount(&self, charge: u32, length: u32) -> u64 {
        let weighing = self.read();
        u64::from(weighing.distance) * u64::from(length)
            + u64::from(weighing.charge) * u64::from(charge)
    }
}
