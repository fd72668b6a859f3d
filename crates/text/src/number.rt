// A number as a field of a line.
ghost use Rattle.std.specs.Option.{MatchOption};
ghost use Rattle.text.specs.Numbers.{Number, Spelt};

/// The most digits that a number has.
const MOST_DIGITS: usize = 6;

/// The number that a field spells: one to six digits, with no zero in front of another digit.
pub(crate) fn number(field: &[u8]) -> Option<u32>
    ensures cases { MatchOption result (Number field.now → ⊥) (λ n. Spelt field.now n) }
{
    if field.is_empty() || field.len() > MOST_DIGITS {
        return None;
    }
    if field[0] == b'0' && field.len() > 1 {
        return None;
    }
    let mut value = 0;
    for digit in field {
        if !digit.is_ascii_digit() {
            return None;
        }
        value = value * 10 + u32::from(*digit - b'0');
    }
    Some(value)
}
