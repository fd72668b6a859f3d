// What the layer `plan` refuses, and each refusal's number and detail.
ghost use Rattle.std.specs.Prelude.{◌≡◌};
ghost use Rattle.turns.specs.Faults.{plan_refusal};

use refusal::{Layer, Refusal};

/// Why a call on sector limits, a drawing or its closing sheet was turned down. Each case holds the refusal's detail.
#[derive(Clone, Copy, PartialEq, Eq, Debug)]
pub enum PlanFault {
    /// 1: sector limits are unsound; the place, from 1, of the first that is above 180 or below the one before.
    BadLimits(u32),
    /// 2: all rows are used, or 1,024 edges are drawn; the number of edges drawn.
    Full(u32),
    /// 3: a junction is above 1,023, or start equals end; the start if it is at fault or equal, else the end.
    BadJunction(u32),
    /// 4: a length is outside 1 to 100,000; the length.
    BadLength(u32),
    /// 5: a bearing is above 359; the leaving bearing if it is at fault, else the arriving one.
    BadBearing(u32),
    /// 6: an edge with the same start and end is drawn; its number.
    Repeated(u32),
    /// 7: sixteen edges leave the start already; the start.
    Crowded(u32),
    /// 8: an edge is not drawn; its number.
    NotDrawn(u32),
    /// 9: closing a shut edge or opening an open one; the edge.
    Already(u32),
    /// 10: the sheet is shorter than the edges drawn; their number.
    ShortSheet(u32),
}

/// The refusal's number, detail and layer: `BadLength(0)` is number 4 with detail 0 of the layer `plan`.
impl From<PlanFault> for Refusal {
    ghost from_gives = { λ f r. r ≡ plan_refusal f };

    fn from(fault: PlanFault) -> Refusal {
        let (number, detail) = match fault {
            PlanFault::BadLimits(limit) => (1, limit),
            PlanFault::Full(drawn) => (2, drawn),
            PlanFault::BadJunction(junction) => (3, junction),
            PlanFault::BadLength(length) => (4, length),
            PlanFault::BadBearing(bearing) => (5, bearing),
            PlanFault::Repeated(edge) => (6, edge),
            PlanFault::Crowded(junction) => (7, junction),
            PlanFault::NotDrawn(edge) => (8, edge),
            PlanFault::Already(edge) => (9, edge),
            PlanFault::ShortSheet(drawn) => (10, drawn),
        };
        let layer = Layer::Plan;
        Refusal {
            number,
            detail,
            layer,
        }
    }
}
