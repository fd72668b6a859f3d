// Clearing the labels before a search.
ghost use Rattle.search.specs.Labels.{Blank, Each};

use crate::label::{Label, NO_EDGE};
use cost::CostKind;

// Makes every label that of an edge to which no walk leads, with the settings of the cost.
pub(crate) fn clear<C: CostKind>(labels: &mut [Label<C>], cost: &C)
    ensures blank { Each (Blank C.CostKind (C.CostKind.settings cost.now)) labels.new }
{
    let blank = Label {
        cost: cost.empty(),
        edges: 0,
        previous: NO_EDGE,
    };
    labels.fill_with(|| blank);
}
