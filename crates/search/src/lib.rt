// The question: the simplest walk between two edges of a drawing, for any turn rule and any kind of cost.
#![tactic(auto)]

mod answer;
mod asking;
mod clear;
mod fault;
mod find;
mod frontier;
mod ground;
mod label;
mod offer;
mod order;
mod question;
mod queue;
mod trace;

pub use answer::Answer;
pub use asking::ask;
pub use fault::QuestionFault;
pub use label::Label;
pub use question::Question;
pub use queue::QueueSlot;
