// The kind of cost that compares by one kind first, and by another where that is equal.
ghost use Rattle.cost.specs.Rankings.{ranked_additions, ranked_amount, ranked_places, ranked_row, ranked_settings};
ghost use Rattle.cost.specs.Rows.{zeros};
ghost use Rattle.std.specs.Prelude.{◌≡◌};
ghost use Rattle.std.proofs.Common.{◌∙◌, sym, rules};
ghost use Rattle.cost.specs.RowLaws.{lengths_append, allowed_append};

use crate::kind::CostKind;
use std::cmp::Ordering;

/// Two costs side by side, the first of which goes before the second.
#[derive(Clone, Copy)]
pub struct Ranked<A, B> {
    first: A,
    second: B,
}

impl<A: CostKind, B: CostKind> Ranked<A, B> {
    /// The empty cost with the settings of these two.
    pub fn new(first: A, second: B) -> Ranked<A, B>
        ensures same { ranked_settings A.CostKind B.CostKind result ≡ (A.CostKind.settings first, B.CostKind.settings second) }
        ensures count { ranked_additions A.CostKind B.CostKind result ≡ 0 }
        ensures zero { ranked_row A.CostKind B.CostKind result ≡ zeros (ranked_places A.CostKind B.CostKind) }
    {
        Ranked {
            first: first.empty(),
            second: second.empty(),
        }
    }
}

/// The places of the first before those of the second; an addition adds to both, and is not taken where either has 1,024.
impl<A: CostKind, B: CostKind> CostKind for Ranked<A, B> {
    ghost Settings = { A.CostKind.Settings × B.CostKind.Settings };

    ghost settings = { ranked_settings A.CostKind B.CostKind };

    ghost places = { ranked_places A.CostKind B.CostKind };

    ghost row = { ranked_row A.CostKind B.CostKind };

    ghost additions = { ranked_additions A.CostKind B.CostKind };

    ghost amount = { ranked_amount A.CostKind B.CostKind };

    ghost even = { λ c. lengths_append (A.CostKind.row c.first) (B.CostKind.row c.second) A.CostKind.places B.CostKind.places (A.CostKind.even c.first) (B.CostKind.even c.second) };

    ghost measured = { λ s u d. lengths_append (A.CostKind.amount s.0 u d) (B.CostKind.amount s.1 u d) A.CostKind.places B.CostKind.places (A.CostKind.measured s.0 u d) (B.CostKind.measured s.1 u d) };

    ghost few = { Prim.search rules };

    ghost allowed = { λ c.
        let s = A.CostKind.settings c.first in
        let t = B.CostKind.settings c.second in
        allowed_append (A.CostKind.row c.first) (B.CostKind.row c.second) (A.CostKind.additions c.first) (B.CostKind.additions c.second) (A.CostKind.amount s) (B.CostKind.amount t) (λ u d. A.CostKind.measured s u d ∙ sym (A.CostKind.even c.first)) (A.CostKind.allowed c.first) (B.CostKind.allowed c.second) };

    fn empty(&self) -> Ranked<A, B> {
        Ranked::new(self.first, self.second)
    }

    fn additions(&self) -> u32 {
        self.first.additions().max(self.second.additions())
    }

    fn compare(&self, other: &Ranked<A, B>) -> Ordering {
        self.first
            .compare(&other.first)
            .then(self.second.compare(&other.second))
    }

    fn add(self, charge: u32, length: u32) -> Option<Ranked<A, B>> {
        Some(Ranked {
            first: self.first.add(charge, length)?,
            second: self.second.add(charge, length)?,
        })
    }
}
