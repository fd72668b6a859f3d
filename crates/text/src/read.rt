// A line of a log, read field by field.
ghost use Rattle.std.specs.Prelude.{◌≡◌, not, ◌∷◌, MatchBool, MatchResult};
ghost use Rattle.text.specs.Faults.{AtField};
ghost use Rattle.text.specs.Kinds.{NoLine, ReadAs, is_opening, word_of};
ghost use Rattle.text.specs.Lines.{Reads};
ghost use Rattle.text.specs.Shapes.{fields_left};

use super::cursor::Cursor;
use super::fault::TextFault;
use super::kind::{FIRST, Kind};
use super::line::Line;
use plan::{Change, NewEdge};

/// The place of the first field behind a line's word.
const SECOND: u32 = 2;

/// The line of a kind with these fields behind its word, or the fault of the first wrong one.
fn read_fields(kind: Kind, fields: &mut Cursor<'_>) -> Result<Line, TextFault>
    ensures cases { ReadAs kind (fields_left fields.old) result }
{
    match kind {
        Kind::Sectors => {
            let [s, b, h] = fields.numbers::<3>(SECOND)?;
            Ok(Line::Sectors { s, b, h })
        }
        Kind::Edge => {
            let [start, end, length, leaving, arriving] = fields.numbers::<5>(SECOND)?;
            Ok(Line::Change(Change::Draw(NewEdge {
                start,
                end,
                length,
                leaving,
                arriving,
            })))
        }
        Kind::Close => {
            let [edge] = fields.numbers::<1>(SECOND)?;
            Ok(Line::Change(Change::Close { edge }))
        }
        Kind::Open => {
            let [edge] = fields.numbers::<1>(SECOND)?;
            Ok(Line::Change(Change::Open { edge }))
        }
        Kind::Measure => {
            let [edge, length] = fields.numbers::<2>(SECOND)?;
            Ok(Line::Change(Change::Measure { edge, length }))
        }
    }
}

/// Whether a line of a kind may come now: the `sectors` line comes first, and once.
fn may_come(kind: Kind, started: bool) -> bool
    ensures cases { MatchBool result (is_opening kind ≡ not started) (is_opening kind ≡ started) }
{
    (kind == Kind::Sectors) != started
}

/// The kind of line that the first field names, if one of it may come now; else that field's fault.
fn read_kind(fields: &mut Cursor<'_>, started: bool) -> Result<Kind, TextFault>
    ensures cases { MatchResult result (λ k. (fields_left fields.old ≡ word_of k ∷ fields_left fields.new) × (is_opening k ≡ not started)) (AtField (NoLine started (fields_left fields.old))) }
{
    let Some(word) = fields.next() else {
        return Err(TextFault::Field(FIRST));
    };
    let kind = Kind::try_from(word)?;
    if !may_come(kind, started) {
        return Err(TextFault::Field(FIRST));
    }
    Ok(kind)
}

/// What a line of a log, without its newline, asks for; else `TextFault::Field` with the place, counted from 1, of its
/// lowest wrong field.
///
/// The lowest wrong field is the first at which the line is no longer the beginning of any line that may stand here. A
/// missing field has the place behind the last one. Until a `sectors` line was accepted (`started`), only such a line
/// may come, and none afterwards.
#[tactic(auto, using(crate::proofs::Reading::line_read))]
pub fn read_line(bytes: &[u8], started: bool) -> Result<Line, TextFault>
    ensures cases { Reads started bytes.now result }
{
    let mut fields = Cursor::new(bytes);
    let kind = read_kind(&mut fields, started)?;
    read_fields(kind, &mut fields)
}
