// A search from its start to its end.
ghost use Rattle.std.specs.Prelude.{◌≡◌, ◌≤◌, length};

use crate::clear::clear;
use crate::frontier::Frontier;
use crate::ground::Ground;
use crate::label::{Label, NO_EDGE};
use crate::queue::QueueSlot;
use cost::CostKind;
use rules::TurnRule;

impl<R: TurnRule, C: CostKind> Ground<'_, '_, R, C> {
    ghost use Rattle.search.specs.Grounds.{drawn_in, settings_of};
    ghost use Rattle.search.specs.Labels.{Fine};
    ghost use Rattle.search.specs.Stages.{Explored, Opens};

    // Labels every drawn edge for walks from the first edge: with the simplest walk to it, or as one to which no walk leads.
    pub(crate) fn explore(&self, labels: &mut [Label<C>], queue: &mut [QueueSlot])
        requires size { length labels.old ≡ drawn_in self.now.question.now }
        requires room { drawn_in self.now.question.now ≤ length queue.old }
        ensures explored { Explored R.TurnRule C.CostKind self.now.question.now labels.new }
    {
        let first = self.question.first as usize;
        clear(labels, self.question.cost);
        if self.question.sheet[first] != 0 {
            return;
        }
        labels[first] = self.opening();
        queue[0] = QueueSlot {
            edge: self.question.first as u16,
        };
        let mut search = Frontier {
            ground: self,
            labels,
            queue,
            len: 1,
        };
        search.run();
    }

    // The label of the first edge: the walk of that edge alone.
    fn opening(&self) -> Label<C>
        ensures fine { Fine C.CostKind (settings_of C.CostKind self.now.question.now) result }
        ensures value { Opens C.CostKind self.now.question.now result }
    {
        let question = self.question;
        let length = question.drawing.edges()[question.first as usize].length;
        let Some(cost) = question.cost.empty().add(0, length) else {
            unreachable()
        };
        Label {
            cost,
            edges: 1,
            previous: NO_EDGE,
        }
    }
}

impl<R: TurnRule, C: CostKind> Frontier<'_, '_, R, C> {
    ghost use Rattle.search.specs.Stages.{Explored, Searching, Stays, asked_of};

    // The loop of the search: edges leave the queue in the order of their labels, each once, and their steps are relaxed, until no edge waits.
    fn run(&mut self)
        requires begun { Searching R.TurnRule C.CostKind self.old (asked_of self.old).first 0 }
        ensures stays { Stays self.old self.new }
        ensures explored { Explored R.TurnRule C.CostKind (asked_of self.old) self.new.labels.now }
    {
        while let Some(edge) = self.take_least() {
            self.relax_all(edge);
        }
    }
}
