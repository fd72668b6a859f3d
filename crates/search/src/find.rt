// The search and its outcome, over lists of the right size.
ghost use Rattle.std.specs.Prelude.{◌≡◌, ◌≤◌, length as length_of};

use crate::answer::Answer;
use crate::fault::QuestionFault;
use crate::ground::Ground;
use crate::label::Label;
use crate::queue::QueueSlot;
use cost::CostKind;
use rules::TurnRule;

impl<R: TurnRule, C: CostKind> Ground<'_, '_, R, C> {
    ghost use Rattle.search.specs.Grounds.{drawn_in, net_of, settings_of};
    ghost use Rattle.search.specs.Questions.{AllLabelled, Outcome};

    // Labels all edges for walks from the first edge, and writes the walk to the last into the route list, or says that there is none.
    pub(crate) fn find(
        &self,
        labels: &mut [Label<C>],
        queue: &mut [QueueSlot],
        route: &mut [u16],
    ) -> Result<Answer<C>, QuestionFault>
        requires size { length_of labels.old ≡ drawn_in self.now.question.now }
        requires room { drawn_in self.now.question.now ≤ length_of queue.old }
        requires long { drawn_in self.now.question.now ≤ length_of route.old }
        ensures outcome { Outcome C.CostKind (settings_of C.CostKind self.now.question.now) (net_of R.TurnRule C.CostKind self.now.question.now) self.now.question.now.first self.now.question.now.last route.old route.new result }
        ensures labelled { AllLabelled C.CostKind (settings_of C.CostKind self.now.question.now) (net_of R.TurnRule C.CostKind self.now.question.now) self.now.question.now.first labels.new }
    {
        self.explore(labels, queue);
        let last = self.question.last;
        let reached = labels[last as usize];
        if reached.edges == 0 {
            return Err(QuestionFault::NoWalk(last));
        }
        let (charge, length) = self.trace(labels, route);
        Ok(Answer {
            cost: reached.cost,
            edges: reached.edges,
            charge,
            length,
        })
    }
}
