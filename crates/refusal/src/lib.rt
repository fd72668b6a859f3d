// What every refusal carries: its number, one detail and the layer that refused.
#![tactic(auto)]

ghost use Rattle.std.specs.Prelude.{◌≡◌, Some};
ghost use Rattle.refusal.specs.Words.{layer_word};

use std::fmt;

/// The layer of the product that turned a call down.
#[derive(Clone, Copy, PartialEq, Eq, Debug)]
pub enum Layer {
    /// The drawing, its sector limits and the closing sheet.
    Plan,
    /// The making of a kind of cost.
    Cost,
    /// A question for the simplest walk.
    Question,
    /// The reader of logs.
    Text,
}

/// Why a call was turned down.
#[derive(Clone, Copy, PartialEq, Eq, Debug)]
pub struct Refusal {
    /// The cause, by its number in the table of refusals.
    pub number: u32,
    /// The one value that the table gives for that cause.
    pub detail: u32,
    /// Who refused.
    pub layer: Layer,
}

/// A layer is printed as one lower-case word: `plan`, `cost`, `question` or `text`.
impl fmt::Display for Layer {
    ghost output = { λ x. Some (layer_word x) };

    fn fmt<W: fmt::Write>(&self, f: &mut fmt::Formatter<W>) -> fmt::Result {
        match self {
            Layer::Plan => write!(f, "plan"),
            Layer::Cost => write!(f, "cost"),
            Layer::Question => write!(f, "question"),
            Layer::Text => write!(f, "text"),
        }
    }
}
