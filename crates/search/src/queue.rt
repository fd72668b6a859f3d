// A place in the queue.

/// A place in the queue of a search. What it holds before and after a question is of no meaning.
#[derive(Clone, Copy)]
pub struct QueueSlot {
    pub(crate) edge: u16,
}

impl QueueSlot {
    /// A slot for lists that are still to be filled.
    pub const EMPTY: QueueSlot = QueueSlot { edge: 0 };
}
