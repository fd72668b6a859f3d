// What a sum adds up: one number for a charge and a length.
ghost use Rattle.std.specs.Prelude.{◌≡◌, ℕ, ◌≤◌};

/// What one addition adds to a sum.
pub trait Measure: Copy {
    // What stays the same over all additions, as weights.
    ghost Settings: { Type 0 };

    // The settings that a measure means.
    ghost settings: { Self → Settings };

    // The most that one addition adds, under these settings.
    ghost most: { Settings → ℕ };

    // What a charge and a length add, under these settings.
    ghost amount: { Settings → ℕ → ℕ → ℕ };

    /// The measure as it is read, with the same settings: an empty cost takes it on.
    fn read(&self) -> Self
        ensures same { settings result ≡ settings self.now }
    {
        *self
    }

    /// The most that one addition adds.
    fn most(&self) -> u32
        ensures value { result ≡ most (settings self.now) };

    /// What a charge and a length add.
    fn amount(&self, charge: u32, length: u32) -> u64
        ensures value { result ≡ amount (settings self.now) charge length };

    // A charge and a length that are taken add no more than the most.
    ghost within: { (s : Settings) (charge long : ℕ) → charge ≤ 1000 → long ≤ 100000 → amount s charge long ≤ most s };

    // The largest charge and the largest length add the most.
    ghost reached: { (s : Settings) → amount s 1000 100000 ≡ most s };
}
