// Taking the edge with the least label out of the queue.
ghost use Rattle.std.specs.Prelude.{◌≡◌, ◌<◌, length, IfSome, MatchOption};

use crate::frontier::Frontier;
use cost::CostKind;
use rules::TurnRule;

impl<R: TurnRule, C: CostKind> Frontier<'_, '_, R, C> {
    ghost use Rattle.search.specs.Queues.{Least};
    ghost use Rattle.search.specs.Stages.{Stays, TakenOut, Takes};

    // Takes the edge with the least label out of the queue, by moving the last one to its place; none where no edge waits.
    #[tactic(auto, using(crate::proofs::Slots::filled_within))]
    pub(super) fn take_least(&mut self) -> Option<u16>
        ensures stays { Stays self.old self.new }
        ensures takes { MatchOption result ((self.old.len ≡ 0) × (self.new ≡ self.old)) (λ e. (e < length self.new.labels.now) × Takes R.TurnRule C.CostKind self.old self.new e) }
        ensures slots { IfSome result (λ e. TakenOut self.old self.new e) }
    {
        let at = self.least()?;
        let edge = self.queue[at].edge;
        let len = self.len - 1;
        self.queue[at] = self.queue[len];
        self.len = len;
        Some(edge)
    }

    // The slot in the queue whose edge has the least cost and, of equal cost, the fewest edges; none where no edge waits.
    #[tactic(auto, using(crate::proofs::Slots::filled_within))]
    fn least(&self) -> Option<usize>
        ensures value { MatchOption result (self.now.len ≡ 0) (λ i. (i < self.now.len) × Least C.CostKind self.now.labels.now self.now.queue.now self.now.len i) }
    {
        if self.len == 0 {
            return None;
        }
        let mut best = 0;
        for at in 1..self.len {
            let x = self.labels[usize::from(self.queue[at].edge)];
            let y = self.labels[usize::from(self.queue[best].edge)];
            if x.is_nearer(&y) {
                best = at;
            }
        }
        Some(best)
    }
}
