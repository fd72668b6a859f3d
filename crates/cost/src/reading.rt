// How the numbers that a cost stores are read, whatever bits it was brought with.
ghost use Rattle.std.specs.Prelude.{◌≡◌, ◌+◌, ◌<◌, ◌≤◌, min};
ghost use Rattle.cost.specs.Adding.{addable};
ghost use Rattle.cost.specs.Reading.{count, held};

/// The largest charge that a cost takes.
pub const MOST_CHARGE: u32 = 1_000;

/// The largest length that a cost takes.
pub const MOST_LENGTH: u32 = 100_000;

/// The largest number of additions that a cost takes.
pub const MOST_ADDITIONS: u32 = 1_024;

/// The additions that a stored number means: itself, and 1,024 where it is above that.
pub fn count(stored: u32) -> u32
    ensures value { result ≡ count stored }
    ensures bound { result ≤ 1024 }
{
    stored.min(MOST_ADDITIONS)
}

/// What a stored place means where one addition adds at most `most`: itself, and what the stored additions allow where it is above that.
pub fn place(most: u32, additions: u32, stored: u64) -> u64
    ensures value { result ≡ held most additions stored }
{
    stored.min(u64::from(count(additions)) * u64::from(most))
}

/// What is to be stored at a place after one more addition, of which at most `most` counts there.
pub fn raised(most: u32, additions: u32, stored: u64, amount: u64) -> u64
    ensures value { result ≡ held most additions stored + min amount most }
    ensures after { count additions < 1024 → held most (count additions + 1) result ≡ result }
{
    place(most, additions, stored) + amount.min(u64::from(most))
}

/// Whether a cost with so many additions takes this charge and this length.
pub fn addable(charge: u32, length: u32, additions: u32) -> bool
    ensures value { result ≡ addable charge length additions }
{
    charge <= MOST_CHARGE && length <= MOST_LENGTH && additions < MOST_ADDITIONS
}
