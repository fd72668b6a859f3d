// Playing a log.
ghost use Rattle.std.specs.Prelude.{◌≡◌, ℕ, ◌<◌, ◌≤◌, List, [], ◌∷◌, ◌++◌, length, IfOk, Some as Just, None as Nothing, string_bytes, MatchOption, MatchResult, OnOk};
ghost use Rattle.turns.specs.Sectors.{limits_of};
ghost use Rattle.plan.specs.Plans.{Over, lender_of};
ghost use Rattle.plan.specs.Studies.{begun, study_of};
ghost use Rattle.plan.specs.declared.row.EdgeRow.{EdgeRow as Row};
ghost use Rattle.text.specs.Faults.{text_refusal};
ghost use Rattle.text.specs.Pieces.{lines_of};
ghost use Rattle.text.specs.Plays.{Answered, OnlyText, Plays, PlaysSome, numbered as numbered_as, too_long};
ghost use Rattle.text.specs.Replies.{reply_text};
ghost use Rattle.text.specs.Runs.{Ended, Ends, Stopped, Stops, Went, moment, moment_over, newly};
ghost use Rattle.text.specs.declared.reply.Reply.TheVariants.{Done, Refused};

use crate::carry::{begin, carry_out};
use crate::fault::TextFault;
use crate::lines::Lines;
use crate::read::read_line;
use crate::reply::Reply;
use plan::{Drawing, EdgeRow};
use std::alloc::{AllocError, Global};
use turns::Sectors;

// The most bytes of a log that is played.
const MOST_BYTES: usize = 65_000;

/// Plays a log over an empty study, and answers the text of its replies: a line for each line of the log, ended by a newline.
///
/// The sheet is cleared first. Afterwards the rows begin with the drawn edges, and are as they were behind them; the sheet tells which are shut. Of a log
/// longer than 65,000 bytes no line is played, nothing is changed, and the text is one line, refusal 13.
pub fn play(
    heap: Global,
    log: &[u8],
    rows: &mut [EdgeRow],
    sheet: &mut [u8],
) -> Result<String, AllocError>
    ensures played { length log.now ≤ 65000 → MatchResult result (λ text. Plays rows.old (length sheet.old) (lines_of log.now) (string_bytes text) rows.new sheet.new) (λ _. PlaysSome rows.old (length sheet.old) (lines_of log.now) rows.new sheet.new) }
    ensures only { length log.now ≤ 65000 → IfOk result (λ text. OnlyText (length rows.old) (length sheet.old) (lines_of log.now) (string_bytes text)) }
    ensures long { 65000 < length log.now → (rows.new ≡ rows.old) × (sheet.new ≡ sheet.old) × IfOk result (λ text. string_bytes text ≡ too_long) }
{
    let mut text = String::new(heap);
    if log.len() > MOST_BYTES {
        put(&mut text, Err(TextFault::Long), 0)?;
        return Ok(text);
    }
    sheet.fill(0);
    let mut lines = Lines::new(log);
    match play_opening(&mut lines, &mut text)? {
        None => Ok(text),
        Some(limits) => {
            play_drawn(limits, rows, sheet, lines, &mut text)?;
            Ok(text)
        }
    }
}

// Plays the lines up to the one that begins the drawing, and answers its limits; none where the log ends before.
fn play_opening(lines: &mut Lines<'_>, text: &mut String) -> Result<Option<Sectors>, AllocError>
    ensures cases { (rows size : ℕ) → IfOk result (λ o. MatchOption o (Ends rows size (moment Nothing lines.old (string_bytes text.old)) Nothing (string_bytes text.new)) (λ l. Went rows size (moment Nothing lines.old (string_bytes text.old)) (moment (Just (begun (limits_of l) rows size)) lines.new (string_bytes text.new)))) }
{
    // A `for` over the lent lines was tried: what they are at the early return is then known by no name that a proof may use.
    while let Some((bytes, number)) = lines.next() {
        match begin_line(bytes) {
            Ok(limits) => {
                put(text, Ok(None), number)?;
                return Ok(Some(limits));
            }
            Err(fault) => put(text, Err(fault), number)?,
        }
    }
    Ok(None)
}

// Plays all lines that are left over a drawing of these limits, which is made over the rows.
fn play_drawn(
    limits: Sectors,
    rows: &mut [EdgeRow],
    sheet: &mut [u8],
    lines: Lines<'_>,
    text: &mut String,
) -> Result<(), AllocError>
    ensures cases { (size : ℕ) → MatchResult result (λ _. Ended rows.old size (moment (Just (newly (limits_of limits) (length rows.old) sheet.old)) lines.entry (string_bytes text.old)) (string_bytes text.new) rows.new sheet.new) (λ _. Stopped rows.old size (moment (Just (newly (limits_of limits) (length rows.old) sheet.old)) lines.entry (string_bytes text.old)) rows.new sheet.new) }
{
    let mut drawing = Drawing::new(limits, rows);
    let played = play_rest(&mut drawing, sheet, lines, text);
    drawing.release();
    played
}

// Plays all lines that are left over a drawing and its sheet.
fn play_rest(
    drawing: &mut Drawing<'_>,
    sheet: &mut [u8],
    lines: Lines<'_>,
    text: &mut String,
) -> Result<(), AllocError>
    ensures cases { (rows size : ℕ) → MatchResult result (λ _. Ends rows size (moment_over drawing.old sheet.old lines.entry (string_bytes text.old)) (Just (study_of drawing.new sheet.new)) (string_bytes text.new)) (λ _. Stops rows size (moment_over drawing.old sheet.old lines.entry (string_bytes text.old)) (Just (study_of drawing.new sheet.new))) }
    ensures over { (rows : List Row) → Over rows drawing.old → Over rows drawing.new }
    ensures lender { lender_of drawing.new ≡ lender_of drawing.old }
{
    for (bytes, number) in lines {
        let answer = answer_line(drawing, sheet, bytes);
        put(text, answer, number)?;
    }
    Ok(())
}

// The limits that a line begins a drawing with; else its fault, where no drawing is begun.
fn begin_line(bytes: &[u8]) -> Result<Sectors, TextFault>
    ensures cases { (rows size i : ℕ) → MatchResult result (λ l. Answered rows size Nothing i bytes.now Done (Just (begun (limits_of l) rows size))) (λ f. Answered rows size Nothing i bytes.now (Refused (text_refusal f) i) Nothing) }
{
    begin(read_line(bytes, false)?)
}

// Plays a line over a drawing and its sheet, and answers the number of the edge that it drew, if it drew one; else its fault, where nothing is changed.
fn answer_line(
    drawing: &mut Drawing<'_>,
    sheet: &mut [u8],
    bytes: &[u8],
) -> Result<Option<u32>, TextFault>
    ensures cases { (rows size i : ℕ) → Answered rows size (Just (study_of drawing.old sheet.old)) i bytes.now (numbered_as result i) (Just (study_of drawing.new sheet.new)) }
    ensures over { (rows : List Row) → Over rows drawing.old → Over rows drawing.new }
    ensures lender { lender_of drawing.new ≡ lender_of drawing.old }
{
    carry_out(drawing, sheet, read_line(bytes, true)?)
}

// The reply to the line with this number: its answer, or its refusal with that number.
fn numbered(answer: Result<Option<u32>, TextFault>, line: u32) -> Reply
    ensures value { result ≡ numbered_as answer line }
{
    match answer {
        Ok(Some(edge)) => Reply::Edge(edge),
        Ok(None) => Reply::Done,
        Err(fault) => Reply::Refused {
            refusal: fault.into(),
            line,
        },
    }
}

// Writes the reply to the line with this number and a newline behind the text.
fn put(
    text: &mut String,
    answer: Result<Option<u32>, TextFault>,
    line: u32,
) -> Result<(), AllocError>
    ensures bytes { OnOk result (string_bytes text.new ≡ string_bytes text.old ++ (reply_text (numbered_as answer line) ++ (10 ∷ []))) }
{
    let reply = numbered(answer, line);
    writeln!(text, "{reply}")
}
