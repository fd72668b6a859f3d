// The kinds of lines, by their words.
ghost use Rattle.std.specs.Prelude.{◌≡◌, ◌≢◌, MatchResult};
ghost use Rattle.text.specs.Kinds.{word_of};
ghost use Rattle.text.specs.declared.kind.Kind.{Kind as Word};
ghost use Rattle.text.specs.declared.fault.TextFault.TheVariants.{Field};

use super::fault::TextFault;

/// The place of a line's word.
pub const FIRST: u32 = 1;

/// A kind of line.
#[derive(Clone, Copy, PartialEq, Eq)]
pub enum Kind {
    Sectors,
    Edge,
    Close,
    Open,
    Measure,
}

/// The kind of line that begins with a word; else the word, a line's first field, is wrong.
impl TryFrom<&[u8]> for Kind {
    type Error = TextFault;

    ghost try_from_gives = { λ word r. MatchResult r (λ k. word.now ≡ word_of k) (λ f. (f ≡ Field 1) × ((k : Word) → word.now ≢ word_of k)) };

    fn try_from(word: &[u8]) -> Result<Kind, TextFault> {
        match word {
            b"sectors" => Ok(Kind::Sectors),
            b"edge" => Ok(Kind::Edge),
            b"close" => Ok(Kind::Close),
            b"open" => Ok(Kind::Open),
            b"measure" => Ok(Kind::Measure),
            _ => Err(TextFault::Field(FIRST)),
        }
    }
}
