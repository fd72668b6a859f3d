// The label that an edge would get by a step from another.
ghost use Rattle.std.specs.Prelude.{◌<◌, ◌≤◌, IfSome, MatchOption};
ghost use Rattle.walks.specs.Networks.{Step, Usable};

use crate::ground::Ground;
use crate::label::Label;
use cost::CostKind;
use rules::TurnRule;

impl<R: TurnRule, C: CostKind> Ground<'_, '_, R, C> {
    ghost use Rattle.search.specs.Grounds.{drawn_in, net_of, settings_of};
    ghost use Rattle.search.specs.Labels.{Fine};
    ghost use Rattle.search.specs.Stages.{Offered};

    // The label of the edge `to` by a step from `from`, whose label is x; none where no step leads to it, where it is shut, or where the walk has 1,024 edges.
    pub(crate) fn offer(&self, x: Label<C>, from: u16, to: u16) -> Option<Label<C>>
        requires drawn { to < drawn_in self.now.question.now }
        ensures cases { Fine C.CostKind (settings_of C.CostKind self.now.question.now) x → MatchOption result (Usable (net_of R.TurnRule C.CostKind self.now.question.now) to → Step (net_of R.TurnRule C.CostKind self.now.question.now) from to → 1024 ≤ x.edges) (Offered R.TurnRule C.CostKind self.now.question.now x from to) }
        ensures some { IfSome result (λ y. 0 < y.edges) }
    {
        let question = self.question;
        if question.sheet[usize::from(to)] != 0
            || question
                .drawing
                .step(u32::from(from), u32::from(to))
                .is_none()
        {
            return None;
        }
        let charge = question
            .rule
            .charge(question.drawing, u32::from(from), u32::from(to));
        let length = question.drawing.edges()[usize::from(to)].length;
        let cost = x.cost.add(charge, length)?;
        Some(Label {
            cost,
            edges: cost.additions(),
            previous: from,
        })
    }
}
