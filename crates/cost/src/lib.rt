// Kinds of cost: what is added up along a walk, and how two walks compare by it.
#![tactic(auto)]

mod charge;
mod distance;
mod fault;
mod kind;
mod measure;
mod ranked;
pub mod reading;
mod sum;
mod tally;
mod weighted;

pub use charge::{Charge, Charges};
pub use distance::{Distance, Lengths};
pub use fault::CostFault;
pub use kind::CostKind;
pub use measure::Measure;
pub use ranked::Ranked;
pub use sum::Sum;
pub use tally::Tally;
pub use weighted::{Weighing, Weighted};
