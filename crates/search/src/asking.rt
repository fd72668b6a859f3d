// Asking a question.
ghost use Rattle.std.specs.Prelude.{length};
ghost use Rattle.plan.specs.Studies.{study_of};
ghost use Rattle.search.specs.Grounds.{settings_of};
ghost use Rattle.search.specs.Histories.{Agrees, Always};
ghost use Rattle.search.specs.Questions.{Answers, asked};

use crate::answer::Answer;
use crate::fault::QuestionFault;
use crate::ground::Ground;
use crate::label::Label;
use crate::question::Question;
use crate::queue::QueueSlot;
use cost::CostKind;
use rules::TurnRule;

/// The simplest walk from the first edge of a question to its last, over the open edges of the drawing, by any turn rule and any kind of cost. Of the cost
/// only the settings are read.
///
/// Of the walks of least cost it is one with the fewest edges and, of these, read from the last edge backwards, the one with the lower edge number at the
/// first difference. The answer is the walk's cost, its number of edges and the sums of its charges and its lengths; the route list begins with its edges
/// and is unchanged behind them. The labels of the drawn edges hold what is known of the simplest walks from the first edge to each; further labels are unchanged.
///
/// Refusals: 8 where the first or the last edge is not drawn, the first before the last; 10 where the sheet, the labels, the queue or the route list is
/// shorter than the edges drawn; both change nothing. 11 where no walk leads there: the labels are written and the route list is unchanged.
pub fn ask<R: TurnRule, C: CostKind>(
    question: &Question<'_, '_, R, C>,
    labels: &mut [Label<C>],
    queue: &mut [QueueSlot],
    route: &mut [u16],
) -> Result<Answer<C>, QuestionFault>
    ensures answers { Answers C.CostKind (settings_of C.CostKind question.now) (study_of question.now.drawing.now question.now.sheet.now) (asked R.TurnRule C.CostKind question.now (length labels.old) (length queue.old) (length route.old)) labels.old labels.new route.old route.new result }
    ensures always { Always C.CostKind (settings_of C.CostKind question.now) (study_of question.now.drawing.now question.now.sheet.now) (asked R.TurnRule C.CostKind question.now (length labels.old) (length queue.old) (length route.old)) labels.old labels.new route.old route.new result }
    ensures agrees { Agrees C.CostKind (settings_of C.CostKind question.now) (study_of question.now.drawing.now question.now.sheet.now) (asked R.TurnRule C.CostKind question.now (length labels.old) (length queue.old) (length route.old)) route.new result }
{
    question.check(labels.len(), queue.len(), route.len())?;
    let drawn = question.drawing.edges().len();
    let ground = Ground { question };
    ground.find(&mut labels[0..drawn], queue, route)
}
