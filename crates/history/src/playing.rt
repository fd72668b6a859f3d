// Replaying a history of calls.
ghost use Rattle.std.specs.Prelude.{◌≡◌, List, length};
ghost use Rattle.turns.specs.Sectors.{limits_of};
ghost use Rattle.plan.specs.Plans.{Over, lender_of};
ghost use Rattle.plan.specs.Studies.{begun, next, study_of};
ghost use Rattle.plan.specs.declared.row.EdgeRow.{EdgeRow};
ghost use Rattle.search.specs.Histories.{after_calls};
ghost use Rattle.search.specs.Questions.{asked_by};
ghost use Rattle.history.specs.Replays.{Replayed, ReplayedByRun, Run, calls_of, drawn_over};

use crate::call::Call;
use cost::CostKind;
use plan::{Change, Drawing, EdgeRow, apply};
use rules::TurnRule;
use search::{Answer, Label, Question, QuestionFault, QueueSlot, ask};
use turns::Sectors;

/// Makes a study from nothing, over the rows and the sheet that are brought, makes every call of the list with the real functions, whatever they answer,
/// and then asks for the simplest walk from `first` to `last`.
///
/// Nothing is asked of the list: it may be of any length, in any order, with refused calls among its own. The answer is that of the plain study after it.
/// The labels and the route list then hold what the questions wrote over what was brought: those of the list in its order, and then the last one.
pub fn replay<R: TurnRule, C: CostKind>(
    limits: Sectors,
    rows: &mut [EdgeRow],
    sheet: &mut [u8],
    calls: &[Call<R, C>],
    rule: &R,
    cost: &C,
    first: u32,
    last: u32,
    labels: &mut [Label<C>],
    queue: &mut [QueueSlot],
    route: &mut [u16],
) -> Result<Answer<C>, QuestionFault>
    ensures answers { Replayed C.CostKind (C.CostKind.settings cost.now) (after_calls (begun (limits_of limits) (length rows.old) (length sheet.old)) (calls_of R.TurnRule C.CostKind (length labels.old) (length queue.old) (length route.old) calls.now)) (asked_by R.TurnRule C.CostKind rule.now (C.CostKind.settings cost.now) first last (length labels.old) (length queue.old) (length route.old)) labels.old labels.new route.old route.new result }
    ensures run { ReplayedByRun R.TurnRule C.CostKind (C.CostKind.settings cost.now) (begun (limits_of limits) (length rows.old) (length sheet.old)) calls.now (asked_by R.TurnRule C.CostKind rule.now (C.CostKind.settings cost.now) first last (length labels.old) (length queue.old) (length route.old)) labels.old labels.new route.old route.new result }
    ensures rows { rows.new ≡ drawn_over rows.old (after_calls (begun (limits_of limits) (length rows.old) (length sheet.old)) (calls_of R.TurnRule C.CostKind (length labels.old) (length queue.old) (length route.old) calls.now)).edges }
    ensures sheet { sheet.new ≡ (after_calls (begun (limits_of limits) (length rows.old) (length sheet.old)) (calls_of R.TurnRule C.CostKind (length labels.old) (length queue.old) (length route.old) calls.now)).sheet }
{
    sheet.fill(0);
    let mut drawing = Drawing::new(limits, rows);
    make_calls(&mut drawing, sheet, calls, labels, queue, route);
    let question = Question {
        drawing: &drawing,
        sheet,
        rule,
        cost,
        first,
        last,
    };
    let answer = ask(&question, labels, queue, route);
    drawing.release();
    answer
}

// Makes every call of the list. What the calls answer is let go; what the questions wrote into the lists stays there.
fn make_calls<R: TurnRule, C: CostKind>(
    drawing: &mut Drawing<'_>,
    sheet: &mut [u8],
    calls: &[Call<R, C>],
    labels: &mut [Label<C>],
    queue: &mut [QueueSlot],
    route: &mut [u16],
)
    ensures after { study_of drawing.new sheet.new ≡ after_calls (study_of drawing.old sheet.old) (calls_of R.TurnRule C.CostKind (length labels.old) (length queue.old) (length route.old) calls.now) }
    ensures lender { lender_of drawing.new ≡ lender_of drawing.old }
    ensures rows { (all : List EdgeRow) → Over all drawing.old → Over all drawing.new }
    ensures run { Run R.TurnRule C.CostKind (length queue.old) (study_of drawing.old sheet.old) calls.now labels.old labels.new route.old route.new }
{
    for call in calls {
        match call {
            Call::Change(change) => make_change(drawing, sheet, *change),
            Call::Ask {
                first,
                last,
                rule,
                cost,
            } => {
                let question = Question {
                    drawing,
                    sheet,
                    rule,
                    cost,
                    first: *first,
                    last: *last,
                };
                let _ = ask(&question, labels, queue, route);
            }
        }
    }
}

// Makes a change, and lets its answer go. A refused one changes nothing.
fn make_change(drawing: &mut Drawing<'_>, sheet: &mut [u8], change: Change)
    ensures after { study_of drawing.new sheet.new ≡ next (study_of drawing.old sheet.old) change }
    ensures lender { lender_of drawing.new ≡ lender_of drawing.old }
    ensures rows { (all : List EdgeRow) → Over all drawing.old → Over all drawing.new }
{
    let _ = apply(drawing, sheet, change);
}
