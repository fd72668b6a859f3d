// The questions that a log can ask: a turn rule and a kind of cost by their words, over lists for every kind.
#![tactic(auto)]

mod choice;
mod telling;
mod worded;
mod workspace;

pub use choice::{KindWord, RuleWord};
pub use telling::Found;
pub use workspace::{Workspace, find_route};
