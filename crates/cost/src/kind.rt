// What every kind of cost has: settings, a number of additions and a row of whole numbers.
ghost use Rattle.std.specs.Prelude.{◌≡◌, ℕ, ◌+◌, ◌≤◌, List, IfSome, is_some, length as size};
ghost use Rattle.cost.specs.Adding.{addable, Allowed};
ghost use Rattle.cost.specs.Orders.{Orders};
ghost use Rattle.cost.specs.Rows.{plus, zeros};

use std::cmp::Ordering;

/// A kind of cost. A cost means its settings, its number of additions and a row of whole numbers, as many places for all of its kind.
pub trait CostKind: Copy {
    // What stays the same over all additions, as weights.
    ghost Settings: { Type 0 };

    // The settings that a cost means.
    ghost settings: { Self → Settings };

    // How many places the rows of the kind have.
    ghost places: { ℕ };

    // The row that a cost means.
    ghost row: { Self → List ℕ };

    // How many additions a cost means.
    ghost additions: { Self → ℕ };

    // What a charge and a length add at each place, under these settings.
    ghost amount: { Settings → ℕ → ℕ → List ℕ };

    /// The cost with these settings that has no additions and is 0 at every place.
    fn empty(&self) -> Self
        ensures same { settings result ≡ settings self.now }
        ensures count { additions result ≡ 0 }
        ensures zero { row result ≡ zeros places };

    /// How many additions the cost has.
    fn additions(&self) -> u32
        ensures value { result ≡ additions self.now };

    /// The order of the two rows, at the first place where they differ.
    ///
    /// It is no `Ord`: costs whose stored numbers differ may mean the same row, and rows of other settings are compared too.
    fn compare(&self, other: &Self) -> Ordering
        ensures value { Orders result (row self.now) (row other.now) };

    /// The cost with a charge and a length added; none at a charge above 1,000, a length above 100,000 or a 1,025th addition.
    fn add(self, charge: u32, length: u32) -> Option<Self>
        ensures value { is_some result ≡ addable charge length (additions self) }
        ensures same { IfSome result (λ c. settings c ≡ settings self) }
        ensures count { IfSome result (λ c. additions c ≡ additions self + 1) }
        ensures sum { IfSome result (λ c. row c ≡ plus (row self) (amount (settings self) charge length)) };

    // Every row has the places of its kind.
    ghost even: { (c : Self) → size (row c) ≡ places };

    // So has what is added.
    ghost measured: { (s : Settings) (charge long : ℕ) → size (amount s charge long) ≡ places };

    // No cost means more than 1,024 additions.
    ghost few: { (c : Self) → additions c ≤ 1024 };

    // No cost means more than its additions allow.
    ghost allowed: { (c : Self) → Allowed (row c) (additions c) (amount (settings c)) };
}
