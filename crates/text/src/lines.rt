// The lines of a log, one after the other.
ghost use Rattle.std.specs.Prelude.{◌≡◌, ◌+◌, ◌≤◌, [], ◌∷◌, length, MatchOption};

use crate::log::next_line;

/// What is left of a log of at most 65,000 bytes, and how many of its lines were taken.
#[derive(Drop)]
pub struct Lines<'a> {
    rest: &'a [u8],
    taken: u32,
    ghost few: { taken + length rest.now ≤ 65000 },
}

impl<'a> Lines<'a> {
    ghost use Rattle.text.specs.Pieces.{lines_of};
    ghost use Rattle.text.specs.Runs.{left_of, taken_of};

    /// All lines of a log, which has at most 65,000 bytes.
    pub(crate) fn new(log: &'a [u8]) -> Lines<'a>
        requires { length log.now ≤ 65000 }
        ensures left { left_of result ≡ lines_of log.now }
        ensures taken { taken_of result ≡ 0 }
    {
        Lines {
            rest: log,
            taken: 0,
        }
    }
}

/// Each line, without its newline, comes with its number, counted from 1.
impl<'a> Iterator for Lines<'a> {
    ghost use Rattle.std.specs.Iterator.{item_count};
    ghost use Rattle.text.specs.Runs.{left_of, taken_of};

    type Item = (&'a [u8], u32);

    ghost next_gives = { λ s r t. MatchOption r (left_of s ≡ []) (λ p. (left_of s ≡ p.0.now ∷ left_of t) × (p.1 ≡ taken_of s + 1) × (taken_of t ≡ p.1)) };

    ghost remaining = { item_count left_of };

    fn next(&mut self) -> Option<(&'a [u8], u32)> {
        let (line, rest) = next_line(self.rest)?;
        let number = self.taken + 1;
        self.rest = rest;
        self.taken = number;
        Some((line, number))
    }
}
