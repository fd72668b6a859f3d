// Logs as text: their lines, what a line asks for, and the reply to it.
#![tactic(auto)]

mod carry;
mod cursor;
mod fault;
mod kind;
mod line;
mod lines;
mod log;
mod number;
mod player;
mod read;
mod reply;

pub use fault::TextFault;
pub use line::Line;
pub use log::next_line;
pub use player::play;
pub use read::read_line;
pub use reply::Reply;
