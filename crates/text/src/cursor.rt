// A walk over the fields of a line.
ghost use Rattle.std.specs.Prelude.{◌≡◌, ◌+◌, ◌^◌, ◌<◌, ◌∷◌, replicate, decimal, MatchResult};
ghost use Rattle.std.specs.Iterator.{YieldsFirstRef, item_count};
ghost use Rattle.text.specs.Faults.{AtField};
ghost use Rattle.text.specs.declared.fault.TextFault.TheVariants.{Field};
ghost use Rattle.text.specs.Numbers.{Number, Numbers, Small};
ghost use Rattle.text.specs.Pieces.{split};
ghost use Rattle.text.specs.Shapes.{MissesFrom, Unlike, fields_left};

use super::fault::TextFault;
use super::log::{TAB, cut};
use super::number::number;

/// The fields of a line that are not read yet.
#[derive(Drop)]
pub struct Cursor<'a> {
    rest: Option<&'a [u8]>,
}

impl<'a> Cursor<'a> {
    /// All fields of a line.
    pub(crate) fn new(line: &'a [u8]) -> Cursor<'a>
        ensures value { fields_left result ≡ split line.now }
    {
        Cursor { rest: Some(line) }
    }

    /// The next field as a number, or the fault at its place.
    pub(crate) fn number(&mut self, place: u32) -> Result<u32, TextFault>
        ensures cases { MatchResult result (λ n. Small n × (fields_left self.old ≡ decimal n ∷ fields_left self.new)) (λ f. (f ≡ Field place) × Unlike Number (fields_left self.old)) }
    {
        self.next().and_then(number).ok_or(TextFault::Field(place))
    }

    /// All fields that are left as numbers, of which there have to be `N`; else the fault of the first wrong one, where
    /// the first of them has the place `first`.
    pub(crate) fn numbers<const N: usize>(&mut self, first: u32) -> Result<[u32; N], TextFault>
        requires { first + N < 2 ^ 32 }
        ensures cases { MatchResult result (λ ns. Numbers N (fields_left self.old) ns) (AtField (MissesFrom first (replicate N Number) (fields_left self.old))) }
    {
        let mut found = [0; N];
        // The place is counted beside the loop, since it is told behind it too.
        let mut place = first;
        for n in found.iter_mut() {
            *n = self.number(place)?;
            place += 1;
        }
        match self.next() {
            None => Ok(found),
            Some(_) => Err(TextFault::Field(place)),
        }
    }
}

impl<'a> Iterator for Cursor<'a> {
    type Item = &'a [u8];

    ghost next_gives = { YieldsFirstRef fields_left };

    ghost remaining = { item_count fields_left };

    fn next(&mut self) -> Option<&'a [u8]> {
        let text = self.rest?;
        let (field, rest) = cut(text, TAB);
        self.rest = rest;
        Some(field)
    }
}
