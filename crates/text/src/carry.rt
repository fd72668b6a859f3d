// The calls that lines ask for.
ghost use Rattle.std.specs.Prelude.{◌≡◌, List};
ghost use Rattle.plan.specs.Plans.{Over, lender_of};
ghost use Rattle.plan.specs.Studies.{study_of};
ghost use Rattle.plan.specs.declared.row.EdgeRow.{EdgeRow as Row};
ghost use Rattle.text.specs.Plays.{asked, begins, moved};
ghost use Rattle.text.specs.Runs.{begun_with};

use crate::fault::TextFault;
use crate::kind::FIRST;
use crate::line::Line;
use plan::{Drawing, apply};
use turns::Sectors;

// The limits that a line begins a drawing with; else the fault of that line, where no drawing is begun.
pub(crate) fn begin(line: Line) -> Result<Sectors, TextFault>
    ensures value { begun_with result ≡ begins line }
{
    match line {
        Line::Sectors { s, b, h } => Ok(Sectors::new(s, b, h)?),
        _ => Err(TextFault::Field(FIRST)),
    }
}

// Makes the call that a line asks for, and answers the number of the edge that it drew, if it drew one; else the fault of that line.
pub(crate) fn carry_out(
    drawing: &mut Drawing<'_>,
    sheet: &mut [u8],
    line: Line,
) -> Result<Option<u32>, TextFault>
    ensures value { result ≡ asked (study_of drawing.old sheet.old) line }
    ensures after { study_of drawing.new sheet.new ≡ moved (study_of drawing.old sheet.old) line }
    ensures over { (rows : List Row) → Over rows drawing.old → Over rows drawing.new }
    ensures lender { lender_of drawing.new ≡ lender_of drawing.old }
{
    match line {
        Line::Sectors { .. } => Err(TextFault::Field(FIRST)),
        Line::Change(change) => Ok(apply(drawing, sheet, change)?),
    }
}
