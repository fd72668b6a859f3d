// Why a question is turned down.
ghost use Rattle.std.specs.Prelude.{◌≡◌};
ghost use Rattle.search.specs.Faults.{question_refusal};

use refusal::{Layer, Refusal};

/// Why a question was turned down. Each case holds the refusal's detail.
#[derive(Clone, Copy, PartialEq, Eq, Debug)]
pub enum QuestionFault {
    /// 8: an edge is not drawn; its number, that of the first edge before that of the last.
    NotDrawn(u32),
    /// 10: the sheet, the labels, the queue or the route list is shorter than the edges drawn; their number.
    Short(u32),
    /// 11: no walk leads from the first edge to the last; the last edge.
    NoWalk(u32),
}

/// The refusal's number, detail and layer: `NoWalk(5)` is number 11 with detail 5 of the layer `question`.
impl From<QuestionFault> for Refusal {
    ghost from_gives = { λ f r. r ≡ question_refusal f };

    fn from(fault: QuestionFault) -> Refusal {
        let (number, detail) = match fault {
            QuestionFault::NotDrawn(edge) => (8, edge),
            QuestionFault::Short(drawn) => (10, drawn),
            QuestionFault::NoWalk(last) => (11, last),
        };
        let layer = Layer::Question;
        Refusal {
            number,
            detail,
            layer,
        }
    }
}
