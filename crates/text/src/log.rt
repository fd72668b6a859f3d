// Bytes cut at a mark, and a log cut into lines.
ghost use Rattle.std.specs.Prelude.{◌≡◌, ◌==◌, ◌<◌, [], ◌∷◌, length, position, MatchOption};
ghost use Rattle.text.specs.Pieces.{Alone, Leads, lines_of};

/// The byte that parts a line's fields.
pub const TAB: u8 = 9;

/// The byte that ends a line.
pub const NEWLINE: u8 = 10;

// The index of the first `mark`, if there is one.
fn index_of(text: &[u8], mark: u8) -> Option<usize>
    ensures value { result ≡ position (λ b. b == mark) text.now }
{
    text.iter().position(|b| *b == mark)
}

/// What stands before the first `mark`, and what stands behind it if there is one.
pub(crate) fn cut(text: &[u8], mark: u8) -> (&[u8], Option<&[u8]>)
    ensures cases { MatchOption result.1 (Alone mark text.now result.0.now) (λ after. Leads mark text.now result.0.now after.now) }
{
    match index_of(text, mark) {
        Some(i) => (&text[0..i], Some(&text[i + 1..])),
        None => (text, None),
    }
}

/// The first line of what is left of a log, without its newline, and the rest behind it; nothing where nothing is left.
pub fn next_line(rest: &[u8]) -> Option<(&[u8], &[u8])>
    ensures cases { MatchOption result ((length rest.now ≡ 0) × (lines_of rest.now ≡ [])) (λ p. (lines_of rest.now ≡ p.0.now ∷ lines_of p.1.now) × (length p.1.now < length rest.now)) }
{
    if rest.is_empty() {
        return None;
    }
    let (line, after) = cut(rest, NEWLINE);
    Some((line, after.unwrap_or(&[])))
}
