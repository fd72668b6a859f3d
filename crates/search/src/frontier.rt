// A search under way: the labels so far, and the queue of the edges that wait.
ghost use Rattle.std.specs.Prelude.{◌≡◌, ℕ, ◌<◌, true, length, slice_index_or};
ghost use Rattle.search.specs.Grounds.{drawn_in};
ghost use Rattle.search.specs.Queues.{Filled, in_queue};
ghost use Rattle.search.specs.declared.label.Label.{Label};

use crate::ground::Ground;
use crate::label::Label;
use crate::queue::QueueSlot;

/// The labels of all drawn edges, and a queue in the first slots, in no order: the edges that have a label and are not settled yet, each once.
#[derive(Drop)]
pub(crate) struct Frontier<'f, 'd, R, C> {
    ground: &'f Ground<'f, 'd, R, C>,
    labels: &'f mut [Label<C>],
    queue: &'f mut [QueueSlot],
    len: usize,
    ghost size: { length labels.now ≡ drawn_in ground.now.question.now },
    ghost filled: { Filled queue.now len (drawn_in ground.now.question.now) },
    ghost waiting: { (e : ℕ) (d : Label C) → e < length labels.now → in_queue queue.now len e ≡ true → 0 < (slice_index_or labels.now e d).edges },
}

mod relax;
mod run;
mod take;
