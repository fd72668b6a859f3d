// Writing the route, from its last edge back to its first.
ghost use Rattle.std.specs.Prelude.{◌≡◌, ℕ, List, length as length_of};
ghost use Rattle.walks.specs.Labels.{Trail};

use crate::ground::Ground;
use crate::label::Label;
use cost::CostKind;
use rules::TurnRule;

impl<R: TurnRule, C: CostKind> Ground<'_, '_, R, C> {
    ghost use Rattle.search.specs.Grounds.{drawn_in, net_of};
    ghost use Rattle.search.specs.Labels.{label_in};
    ghost use Rattle.search.specs.Traces.{Traceable, Traced};

    // Writes the walk to the last edge to the beginning of the route list, by the previous edges of the labels, and answers the sums of its charges and of
    // its lengths.
    pub(crate) fn trace(&self, labels: &[Label<C>], route: &mut [u16]) -> (u32, u32)
        requires size { length_of labels.now ≡ drawn_in self.now.question.now }
        requires trail { Traceable (net_of R.TurnRule C.CostKind self.now.question.now) (label_in C.CostKind labels.now) self.now.question.now.last (length_of route.old) }
        ensures traced { (t : List ℕ) → Trail (net_of R.TurnRule C.CostKind self.now.question.now) (label_in C.CostKind labels.now) self.now.question.now.last t → Traced (net_of R.TurnRule C.CostKind self.now.question.now) self.now.question.now.last t route.old route.new result.0 result.1 }
    {
        let question = self.question;
        let edges = question.drawing.edges();
        let last = question.last as usize;
        let ending = labels[last];
        let mut at = question.last as u16;
        let mut charge = 0;
        let mut length = edges[last].length;
        for place in (1..ending.edges as usize).rev() {
            route[place] = at;
            let reached = labels[usize::from(at)];
            charge += question.rule.charge(
                question.drawing,
                u32::from(reached.previous),
                u32::from(at),
            );
            at = reached.previous;
            length += edges[usize::from(at)].length;
        }
        route[0] = at;
        (charge, length)
    }
}
