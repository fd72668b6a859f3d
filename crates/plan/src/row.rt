// One row of a drawing.
ghost use Rattle.std.specs.Prelude.{◌≡◌};
ghost use Rattle.plan.specs.Studies.{answered, length_fault, row_fault, row_of};

use crate::change::NewEdge;
use turns::PlanFault;

/// A walkable edge, from one junction to another.
///
/// A junction is numbered 0 to 1,023, a length runs from 1 to 100,000 decimetres, and a bearing is 0 to 359 degrees, clockwise from north.
#[derive(Clone, Copy, PartialEq, Eq, Debug)]
pub struct EdgeRow {
    /// The junction that the edge leaves.
    pub start: u16,
    /// The junction at which it arrives.
    pub end: u16,
    /// Its length in decimetres.
    pub length: u32,
    /// The bearing on which it leaves its start.
    pub leaving: u16,
    /// The bearing on which it arrives at its end.
    pub arriving: u16,
}

impl EdgeRow {
    /// A row of zeros, for lists that are still to be filled.
    pub const EMPTY: EdgeRow = EdgeRow {
        start: 0,
        end: 0,
        length: 0,
        leaving: 0,
        arriving: 0,
    };
}

/// The row of an edge that is brought, or why there is none: a junction, the length or a bearing.
impl TryFrom<NewEdge> for EdgeRow {
    type Error = PlanFault;

    ghost try_from_gives = { λ edge r. r ≡ answered (row_fault edge) (row_of edge) };

    fn try_from(edge: NewEdge) -> Result<EdgeRow, PlanFault> {
        if edge.start > 1023 || edge.start == edge.end {
            return Err(PlanFault::BadJunction(edge.start));
        }
        if edge.end > 1023 {
            return Err(PlanFault::BadJunction(edge.end));
        }
        check_length(edge.length)?;
        if edge.leaving > 359 {
            return Err(PlanFault::BadBearing(edge.leaving));
        }
        if edge.arriving > 359 {
            return Err(PlanFault::BadBearing(edge.arriving));
        }
        Ok(EdgeRow {
            start: edge.start as u16,
            end: edge.end as u16,
            length: edge.length,
            leaving: edge.leaving as u16,
            arriving: edge.arriving as u16,
        })
    }
}

// Whether a length can be drawn or measured: 1 to 100,000.
pub(crate) fn check_length(length: u32) -> Result<(), PlanFault>
    ensures value { result ≡ answered (length_fault length) tt }
{
    if length < 1 || length > 100_000 {
        return Err(PlanFault::BadLength(length));
    }
    Ok(())
}
