// The kind of cost that counts charges by how heavy they are.
ghost use Rattle.cost.specs.Rows.{zeros};
ghost use Rattle.cost.specs.Tallies.{tally_additions, tally_amount, tally_row};
ghost use Rattle.std.specs.Prelude.{◌≡◌, zero, suc, slice_index};
ghost use Rattle.std.proofs.Common.{zero-le, lit≤, rules};
ghost use Rattle.cost.specs.AddLaws.{held_allowed};

use crate::kind::CostKind;
use crate::reading::{addable, count, place};
use std::cmp::Ordering;

/// How many charges were 8 or more, how many 4 to 7 and how many 1 to 3.
#[derive(Clone, Copy)]
pub struct Tally {
    additions: u32,
    counts: [u64; 3],
}

impl Tally {
    /// The empty cost.
    pub fn new() -> Tally
        ensures count { tally_additions result ≡ 0 }
        ensures zero { tally_row result ≡ zeros 3 }
    {
        Tally {
            additions: 0,
            counts: [0; 3],
        }
    }

    // The row that the cost means.
    fn row(&self) -> [u64; 3]
        ensures value { result ≡ tally_row self.now }
    {
        self.counts.map(|stored| place(1, self.additions, stored))
    }
}

/// Three places; an addition adds one at the first for a charge of 8 or more, at the second for 4 to 7, at the third for 1 to 3.
impl CostKind for Tally {
    ghost Settings = { Unit {0} };

    ghost settings = { λ _. tt };

    ghost places = { 3 };

    ghost row = { tally_row };

    ghost additions = { tally_additions };

    ghost amount = { tally_amount };

    ghost even = { Prim.search rules };

    ghost measured = { Prim.search rules };

    ghost few = { Prim.search rules };

    ghost allowed = { λ c.
        elim [
          | zero ↦ λ m h. held_allowed 1 c.additions (slice_index c.counts 0) m (h 8 0 (lit≤ tt) (lit≤ tt))
          | suc zero ↦ λ m h. held_allowed 1 c.additions (slice_index c.counts 1) m (h 4 0 (lit≤ tt) (lit≤ tt))
          | suc (suc zero) ↦ λ m h. held_allowed 1 c.additions (slice_index c.counts 2) m (h 1 0 (lit≤ tt) (lit≤ tt))
          | suc (suc (suc k)) ↦ λ m h. zero-le
        ] };

    fn empty(&self) -> Tally {
        Tally::new()
    }

    fn additions(&self) -> u32 {
        count(self.additions)
    }

    fn compare(&self, other: &Tally) -> Ordering {
        self.row().cmp(&other.row())
    }

    fn add(self, charge: u32, length: u32) -> Option<Tally> {
        let additions = self.additions();
        if !addable(charge, length, additions) {
            return None;
        }
        let mut counts = self.row();
        match charge {
            0 => {}
            1..=3 => counts[2] += 1,
            4..=7 => counts[1] += 1,
            _ => counts[0] += 1,
        }
        Some(Tally {
            additions: additions + 1,
            counts,
        })
    }
}
