// What the making of a cost refuses.
ghost use Rattle.cost.specs.Faults.{cost_refusal, same_fault, same_fault_decides};
ghost use Rattle.std.specs.Prelude.{◌≡◌};
ghost use Rattle.std.specs.Cmp.{decided, partial_equiv_from_equiv};

use refusal::{Layer, Refusal};

/// Why a cost was not made.
#[derive(Clone, Copy, Eq, Debug)]
pub enum CostFault {
    /// A weight above 100.
    Weight(u32),
}

/// The number, the detail and the layer of a fault.
impl From<CostFault> for Refusal {
    ghost from_gives = { λ f r. r ≡ cost_refusal f };

    fn from(fault: CostFault) -> Refusal {
        match fault {
            CostFault::Weight(weight) => Refusal {
                number: 14,
                detail: weight,
                layer: Layer::Cost,
            },
        }
    }
}

/// Faults are equal where their causes and details are.
impl PartialEq for CostFault {
    ghost eq = { same_fault };

    ghost laws = { partial_equiv_from_equiv (decided same_fault same_fault_decides) };

    fn eq(&self, other: &CostFault) -> bool {
        let CostFault::Weight(mine) = self;
        let CostFault::Weight(theirs) = other;
        *mine == *theirs
    }
}
