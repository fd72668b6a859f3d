// Why a line of a log, or a whole log, is turned down.
ghost use Rattle.std.specs.Prelude.{◌≡◌};
ghost use Rattle.text.specs.Faults.{text_refusal};
ghost use Rattle.text.specs.declared.fault.TextFault.TheVariants.{Plan};

use refusal::{Layer, Refusal};
use turns::PlanFault;

/// Why a log or one of its lines was turned down.
#[derive(Clone, Copy, PartialEq, Eq, Debug)]
pub enum TextFault {
    /// 12: a line is not sound; the place, from 1, of its lowest wrong field.
    Field(u32),
    /// 13: the log is longer than 65,000 bytes.
    Long,
    /// The refusal of a call on the drawing or its sheet, as it was given.
    Plan(PlanFault),
}

/// The refusal's number, detail and layer: `Field(3)` is number 12 with detail 3 of the layer `text`.
impl From<TextFault> for Refusal {
    ghost from_gives = { λ f r. r ≡ text_refusal f };

    fn from(fault: TextFault) -> Refusal {
        let (number, detail) = match fault {
            TextFault::Field(place) => (12, place),
            TextFault::Long => (13, 0),
            TextFault::Plan(fault) => return Refusal::from(fault),
        };
        let layer = Layer::Text;
        Refusal {
            number,
            detail,
            layer,
        }
    }
}

/// A fault of the drawing or its sheet comes up whole.
impl From<PlanFault> for TextFault {
    ghost from_gives = { λ p r. r ≡ Plan p };

    fn from(refused: PlanFault) -> TextFault {
        TextFault::Plan(refused)
    }
}
