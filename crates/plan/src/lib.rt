// A drawing of walkable edges over rows that the caller brings, and the closing sheet beside it.
#![tactic(auto)]

mod calls;
mod change;
mod drawing;
mod junction;
mod row;
mod sheet;
mod step;

pub use calls::apply;
pub use change::{Change, NewEdge};
pub use drawing::Drawing;
pub use row::EdgeRow;
pub use sheet::{close, open};
