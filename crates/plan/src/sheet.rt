// The closing sheet: byte n is edge n, 0 is open, any other value is shut.
ghost use Rattle.std.specs.Prelude.{◌≡◌};
ghost use Rattle.plan.specs.Plans.{plan_of};
ghost use Rattle.plan.specs.Studies.{answered, next, refusal_of, sheet_fault, study_of, switching};
ghost use Rattle.plan.specs.declared.change.Change.TheVariants.{Close, Open};

use crate::drawing::Drawing;
use turns::PlanFault;

/// Shuts an open edge: writes 1 at its byte, and nothing else.
///
/// Refusals, in their order: 8 where the edge is not drawn, 10 where the sheet is shorter than the edges drawn, 9 where the edge is shut already. A refusal
/// changes nothing.
pub fn close(drawing: &Drawing<'_>, sheet: &mut [u8], edge: u32) -> Result<(), PlanFault>
    ensures value { result ≡ answered (refusal_of (study_of drawing.now sheet.old) (Close edge)) tt }
    ensures after { study_of drawing.now sheet.new ≡ next (study_of drawing.now sheet.old) (Close edge) }
{
    switch(drawing, sheet, edge, true)
}

/// Opens a shut edge: writes 0 at its byte, and nothing else.
///
/// Refusals, in their order: 8 where the edge is not drawn, 10 where the sheet is shorter than the edges drawn, 9 where the edge is open already. A refusal
/// changes nothing.
pub fn open(drawing: &Drawing<'_>, sheet: &mut [u8], edge: u32) -> Result<(), PlanFault>
    ensures value { result ≡ answered (refusal_of (study_of drawing.now sheet.old) (Open edge)) tt }
    ensures after { study_of drawing.now sheet.new ≡ next (study_of drawing.now sheet.old) (Open edge) }
{
    switch(drawing, sheet, edge, false)
}

// Shuts an open edge, or opens a shut one.
fn switch(drawing: &Drawing<'_>, sheet: &mut [u8], edge: u32, shut: bool) -> Result<(), PlanFault>
    ensures value { result ≡ answered (refusal_of (study_of drawing.now sheet.old) (switching shut edge)) tt }
    ensures after { study_of drawing.now sheet.new ≡ next (study_of drawing.now sheet.old) (switching shut edge) }
{
    drawing.check_drawn(edge)?;
    check_sheet(drawing, sheet)?;
    let at = edge as usize;
    if (sheet[at] != 0) == shut {
        return Err(PlanFault::Already(edge));
    }
    sheet[at] = u8::from(shut);
    Ok(())
}

// Whether the sheet has a byte for every drawn edge.
fn check_sheet(drawing: &Drawing<'_>, sheet: &[u8]) -> Result<(), PlanFault>
    ensures value { result ≡ answered (sheet_fault (plan_of drawing.now).edges sheet.now) tt }
{
    let drawn = drawing.edges().len();
    if sheet.len() < drawn {
        return Err(PlanFault::ShortSheet(drawn as u32));
    }
    Ok(())
}
