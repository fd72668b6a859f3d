// Sector limits, bearings, turns and their classes; what the layer `plan` refuses; the class of a turn by five plain numbers.
#![tactic(auto)]

mod class;
mod export;
mod fault;
mod sectors;
mod turning;

pub use class::Class;
pub use export::turn_class;
pub use fault::PlanFault;
pub use sectors::Sectors;
pub use turning::turn;
