// Which of two labels comes first.
ghost use Rattle.std.specs.Prelude.{MatchBool};
ghost use Rattle.std.specs.Ordering.{MatchOrdering};
ghost use Rattle.walks.specs.Labels.{AtMost, KeyAtMost, KeyLess, LabelLess};
ghost use Rattle.search.specs.Labels.{SameKey, plain};

use crate::label::Label;
use cost::CostKind;
use std::cmp::Ordering;

impl<C: CostKind> Label<C> {
    // The order of two labels by their costs and, of equal cost, by their numbers of edges.
    fn key_order(&self, other: &Label<C>) -> Ordering
        ensures cases { MatchOrdering result (KeyLess (plain C.CostKind self.now) (plain C.CostKind other.now)) (SameKey (plain C.CostKind self.now) (plain C.CostKind other.now)) (KeyLess (plain C.CostKind other.now) (plain C.CostKind self.now)) }
    {
        self.cost
            .compare(&other.cost)
            .then(self.edges.cmp(&other.edges))
    }

    // Whether the label is cheaper than another, or as cheap with fewer edges.
    pub(crate) fn is_nearer(&self, other: &Label<C>) -> bool
        ensures cases { MatchBool result (KeyLess (plain C.CostKind self.now) (plain C.CostKind other.now)) (KeyAtMost (plain C.CostKind other.now) (plain C.CostKind self.now)) }
    {
        self.key_order(other).is_lt()
    }

    // Whether the label comes before another: cheaper, or as cheap with fewer edges, or as cheap and as long with the lower previous edge.
    pub(crate) fn is_before(&self, other: &Label<C>) -> bool
        ensures cases { MatchBool result (LabelLess (plain C.CostKind self.now) (plain C.CostKind other.now)) (AtMost (plain C.CostKind other.now) (plain C.CostKind self.now)) }
    {
        self.key_order(other)
            .then(self.previous.cmp(&other.previous))
            .is_lt()
    }
}
