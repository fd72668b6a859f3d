// What is told of a question's answer: its route and the sums.
ghost use Rattle.std.specs.Prelude.{◌≡◌, length};
ghost use Rattle.plan.specs.Studies.{study_of};
ghost use Rattle.routing.specs.Choices.{by_rule};
ghost use Rattle.routing.specs.Lists.{Leaves};
ghost use Rattle.routing.specs.Tellings.{Tells, found_in};

use crate::choice::{KindWord, RuleWord};
use cost::CostKind;
use search::{Answer, Label, Question, QuestionFault, QueueSlot, ask};

/// The sums of a route: of its charges and of its lengths, and its number of edges. The edges begin the route list.
#[derive(Clone, Copy)]
pub struct Found {
    pub charge: u32,
    pub length: u32,
    pub edges: u32,
}

/// Leaves out the cost of an answer.
impl<C: CostKind> From<Answer<C>> for Found {
    ghost from_gives = { λ answer found. found ≡ found_in answer };

    fn from(answer: Answer<C>) -> Found {
        Found {
            charge: answer.charge,
            length: answer.length,
            edges: answer.edges,
        }
    }
}

// Asks a question by a kind of cost, whichever kind its word names, and leaves out the cost of the answer.
pub(crate) fn tell<C: CostKind>(
    question: &Question<'_, '_, RuleWord, KindWord>,
    cost: &C,
    labels: &mut [Label<C>],
    queue: &mut [QueueSlot],
    route: &mut [u16],
) -> Result<Found, QuestionFault>
    ensures cases { Tells (study_of question.now.drawing.now question.now.sheet.now) (by_rule question.now.rule.now C.CostKind.places (C.CostKind.amount (C.CostKind.settings cost.now)) question.now.first question.now.last (length labels.old) (length queue.old) (length route.old)) route.old route.new result }
    ensures labels { Leaves C.CostKind (C.CostKind.settings cost.now) (study_of question.now.drawing.now question.now.sheet.now) (by_rule question.now.rule.now C.CostKind.places (C.CostKind.amount (C.CostKind.settings cost.now)) question.now.first question.now.last (length labels.old) (length queue.old) (length route.old)) labels.old labels.new }
{
    let priced = Question {
        drawing: question.drawing,
        sheet: question.sheet,
        rule: question.rule,
        cost,
        first: question.first,
        last: question.last,
    };
    let answer = ask(&priced, labels, queue, route)?;
    Ok(Found::from(answer))
}
