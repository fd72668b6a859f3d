// Relaxing the steps out of an edge.
ghost use Rattle.std.specs.Prelude.{◌+◌, ◌<◌, length};

use crate::frontier::Frontier;
use crate::queue::QueueSlot;
use cost::CostKind;
use rules::TurnRule;

impl<R: TurnRule, C: CostKind> Frontier<'_, '_, R, C> {
    ghost use Rattle.search.specs.Grounds.{drawn_in};
    ghost use Rattle.search.specs.Stages.{Keeps, PutIn, Stays, asked_of};

    // Relaxes every step out of the edge `from`.
    pub(super) fn relax_all(&mut self, from: u16)
        requires drawn { from < length self.old.labels.now }
        ensures stays { Stays self.old self.new }
        ensures keeps { Keeps R.TurnRule C.CostKind self.old self.new from 0 (drawn_in (asked_of self.new)) }
    {
        let edges = self.ground.question.drawing.edges();
        let end = edges[usize::from(from)].end;
        for (to, row) in edges.iter().enumerate() {
            if row.start == end {
                self.relax(from, to as u16);
            }
        }
    }

    // Relaxes the step from the edge `from` to the edge `to`: an edge that had no walk is labelled and enters the queue, and an edge whose label is worse
    // gets the better one.
    #[tactic(auto, using(crate::proofs::Slots::filled_within))]
    fn relax(&mut self, from: u16, to: u16)
        requires from { from < length self.old.labels.now }
        requires to { to < length self.old.labels.now }
        ensures stays { Stays self.old self.new }
        ensures keeps { Keeps R.TurnRule C.CostKind self.old self.new from to (to + 1) }
        ensures slots { PutIn self.old self.new to }
    {
        let place = usize::from(to);
        let x = self.labels[usize::from(from)];
        let Some(new) = self.ground.offer(x, from, to) else {
            return;
        };
        let old = self.labels[place];
        if old.edges == 0 {
            let len = self.len;
            self.labels[place] = new;
            self.queue[len] = QueueSlot { edge: to };
            self.len = len + 1;
            return;
        }
        if new.is_before(&old) {
            self.labels[place] = new;
        }
    }
}
