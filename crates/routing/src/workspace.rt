// The lists that questions of every kind work in.
ghost use Rattle.std.specs.Prelude.{length};
ghost use Rattle.plan.specs.Studies.{study_of};
ghost use Rattle.routing.specs.Choices.{worded};
ghost use Rattle.routing.specs.Lists.{Worked, labels_for};
ghost use Rattle.routing.specs.Tellings.{Tells};

use crate::choice::{KindWord, RuleWord};
use crate::telling::{Found, tell};
use cost::{Charge, Distance, Ranked, Tally, Weighted};
use search::{Label, Question, QuestionFault, QueueSlot};

/// Labels for each kind of cost. What they hold before a question is of no meaning.
#[derive(Drop)]
pub struct Workspace<'a> {
    pub distance: &'a mut [Label<Distance>],
    pub ranked: &'a mut [Label<Ranked<Charge, Distance>>],
    pub weighted: &'a mut [Label<Weighted>],
    pub tally: &'a mut [Label<Ranked<Tally, Distance>>],
}

/// The simplest walk from the first edge of a question to its last, by a rule and a kind of cost that are named by their words: the sums of its charges and
/// lengths and its number of edges, with its edges at the beginning of the route list; or the refusal of the question (8, 10 or 11), with the route list as
/// it was.
pub fn find_route(
    question: &Question<'_, '_, RuleWord, KindWord>,
    work: &mut Workspace<'_>,
    queue: &mut [QueueSlot],
    route: &mut [u16],
) -> Result<Found, QuestionFault>
    ensures cases { Tells (study_of question.now.drawing.now question.now.sheet.now) (worded question.now (labels_for question.now.cost.now work.old) (length queue.old) (length route.old)) route.old route.new result }
    ensures labels { Worked question.now.cost.now (study_of question.now.drawing.now question.now.sheet.now) (worded question.now (labels_for question.now.cost.now work.old) (length queue.old) (length route.old)) work.old work.new }
{
    match question.cost {
        KindWord::Distance => tell(question, &Distance::new(), work.distance, queue, route),
        KindWord::Ranked => {
            let cost = Ranked::new(Charge::new(), Distance::new());
            tell(question, &cost, work.ranked, queue, route)
        }
        KindWord::Weighted => {
            let Ok(cost) = Weighted::new(1, 6) else {
                unreachable()
            };
            tell(question, &cost, work.weighted, queue, route)
        }
        KindWord::Tally => {
            let cost = Ranked::new(Tally::new(), Distance::new());
            tell(question, &cost, work.tally, queue, route)
        }
    }
}
