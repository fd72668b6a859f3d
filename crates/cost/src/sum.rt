// The kinds of cost that add up one number.
ghost use Rattle.cost.specs.Rows.{zeros};
ghost use Rattle.cost.specs.Sums.{sum_additions, sum_amount, sum_row, sum_settings};
ghost use Rattle.std.specs.Prelude.{◌≡◌, zero, suc, [], ◌∷◌};
ghost use Rattle.std.proofs.Common.{zero-le, lit≤, rules};
ghost use Rattle.cost.specs.AddLaws.{held_reached};

use crate::kind::CostKind;
use crate::measure::Measure;
use crate::reading::{addable, count, place, raised};
use std::cmp::Ordering;

/// The sum of what a measure gives.
#[derive(Clone, Copy)]
pub struct Sum<M> {
    measure: M,
    additions: u32,
    sum: u64,
}

impl<M: Measure> Sum<M> {
    // The empty cost by a measure.
    pub(crate) fn by(measure: M) -> Sum<M>
        ensures same { sum_settings M.Measure result ≡ M.Measure.settings measure }
        ensures count { sum_additions result ≡ 0 }
        ensures zero { sum_row M.Measure result ≡ zeros 1 }
    {
        Sum {
            measure,
            additions: 0,
            sum: 0,
        }
    }

    // The sum that the cost means.
    fn total(&self) -> u64
        ensures value { result ∷ [] ≡ sum_row M.Measure self.now }
    {
        place(self.measure.most(), self.additions, self.sum)
    }
}

/// One place; an addition adds what the measure gives.
impl<M: Measure> CostKind for Sum<M> {
    ghost Settings = { M.Measure.Settings };

    ghost settings = { sum_settings M.Measure };

    ghost places = { 1 };

    ghost row = { sum_row M.Measure };

    ghost additions = { sum_additions };

    ghost amount = { sum_amount M.Measure };

    ghost even = { Prim.search rules };

    ghost measured = { Prim.search rules };

    ghost few = { Prim.search rules };

    ghost allowed = { λ c.
        elim [
          | zero ↦ λ m h. held_reached (M.Measure.most (M.Measure.settings c.measure)) c.additions c.sum m _ (M.Measure.reached (M.Measure.settings c.measure)) (h 1000 100000 (lit≤ tt) (lit≤ tt))
          | suc k ↦ λ m h. zero-le
        ] };

    fn empty(&self) -> Sum<M> {
        Sum::by(self.measure.read())
    }

    fn additions(&self) -> u32 {
        count(self.additions)
    }

    fn compare(&self, other: &Sum<M>) -> Ordering {
        self.total().cmp(&other.total())
    }

    fn add(self, charge: u32, length: u32) -> Option<Sum<M>> {
        let additions = self.additions();
        if !addable(charge, length, additions) {
            return None;
        }
        let most = self.measure.most();
        let amount = self.measure.amount(charge, length);
        Some(Sum {
            additions: additions + 1,
            sum: raised(most, self.additions, self.sum, amount),
            ..self
        })
    }
}
