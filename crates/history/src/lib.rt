// Histories of calls as data, and a study replayed from its making.
#![tactic(auto)]

mod call;
mod playing;

pub use call::Call;
pub use playing::replay;
