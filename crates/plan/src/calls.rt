// Making a change by the call of its kind.
ghost use Rattle.std.specs.Prelude.{◌≡◌, List};
ghost use Rattle.plan.specs.Plans.{Over, lender_of};
ghost use Rattle.plan.specs.Studies.{answered, next, number_drawn, refusal_of, study_of};
ghost use Rattle.plan.specs.declared.row.EdgeRow.{EdgeRow as Row};

use crate::change::Change;
use crate::drawing::Drawing;
use crate::sheet::{close, open};
use turns::PlanFault;

/// Makes a change of a drawing and its sheet by the call of its kind, and answers the number of the edge where it drew one.
///
/// The refusals are those of that call. A refusal changes nothing.
pub fn apply(
    drawing: &mut Drawing<'_>,
    sheet: &mut [u8],
    change: Change,
) -> Result<Option<u32>, PlanFault>
    ensures value { result ≡ answered (refusal_of (study_of drawing.old sheet.old) change) (number_drawn (study_of drawing.old sheet.old) change) }
    ensures after { study_of drawing.new sheet.new ≡ next (study_of drawing.old sheet.old) change }
    ensures over { (rows : List Row) → Over rows drawing.old → Over rows drawing.new }
    ensures lender { lender_of drawing.new ≡ lender_of drawing.old }
{
    match change {
        Change::Draw(edge) => return drawing.draw(edge).map(Some),
        Change::Measure { edge, length } => drawing.measure(edge, length)?,
        Change::Close { edge } => close(drawing, sheet, edge)?,
        Change::Open { edge } => open(drawing, sheet, edge)?,
    }
    Ok(None)
}
