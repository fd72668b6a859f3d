// Turn rules: what a step from one edge to the next is charged for how hard it is to explain.
#![tactic(auto)]

mod ambiguity;
mod others;
mod rule;
mod slots;
mod turns_only;

pub use ambiguity::Ambiguity;
pub use rule::TurnRule;
pub use slots::Slots;
pub use turns_only::Turns;
