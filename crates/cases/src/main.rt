// The worked cases: those that are proved, as a theorem, and the others, tried and printed with what they should be and what came.
#![tactic(auto)]

ghost use Rattle.cases.specs.Worked.{Worked};

use cost::Weighted;
use plan::{Drawing, EdgeRow, NewEdge};
use refusal::Refusal;
use rules::{Slots, TurnRule};
use std::io;
use turns::{Sectors, turn};

// The worked examples that are proved.
fn worked_examples_hold()
    ensures { Worked }
{}

// The angle and the class of a turn.
fn show_turn(
    rt: &HostRuntime,
    limits: Sectors,
    arriving: u32,
    leaving: u32,
    want: &str,
) -> io::Result<()> {
    match turn(&limits, arriving, leaving) {
        Ok((angle, class)) => {
            let code = u8::from(class);
            println!(rt; "turn {arriving} {leaving}: should be {want}; came {angle} {code}")
        }
        Err(fault) => {
            let Refusal { number, detail, .. } = Refusal::from(fault);
            println!(rt;
                "turn {arriving} {leaving}: should be {want}; came refused {number} {detail}"
            )
        }
    }
}

// An edge of ten metres that keeps its bearing.
fn straight(start: u32, end: u32, bearing: u32) -> NewEdge {
    NewEdge {
        start,
        end,
        length: 100,
        leaving: bearing,
        arriving: bearing,
    }
}

// What slots charges for turning left beside a straight step, at a junction that so many edges leave.
fn show_slots(rt: &HostRuntime, limits: Sectors, degree: u32, want: u32) -> io::Result<()> {
    let mut rows = [EdgeRow::EMPTY; 8];
    let mut drawing = Drawing::new(limits, &mut rows);
    let _ = drawing.draw(straight(0, 1, 90));
    let _ = drawing.draw(straight(1, 2, 90));
    let _ = drawing.draw(straight(1, 3, 0));
    for end in 4..degree.min(8) + 2 {
        let _ = drawing.draw(straight(1, end, 180));
    }
    let came = Slots.charge(&drawing, 0, 2);
    drawing.release();
    println!(rt; "slots at degree {degree}: should be {want}; came {came}")
}

// Whether weights are sound.
fn show_weights(rt: &HostRuntime, wd: u32, wu: u32, want: &str) -> io::Result<()> {
    match Weighted::new(wd, wu) {
        Ok(_) => println!(rt; "weights {wd} {wu}: should be {want}; came ok"),
        Err(fault) => {
            let Refusal { number, detail, .. } = Refusal::from(fault);
            println!(rt; "weights {wd} {wu}: should be {want}; came refused {number} {detail}")
        }
    }
}

fn main(rt: HostRuntime) -> io::Result<()> {
    worked_examples_hold();
    let Ok(limits) = Sectors::new(20, 60, 120) else {
        return println!(rt; "no limits");
    };
    show_turn(&rt, limits, 60, 0, "-60 4")?;
    show_turn(&rt, limits, 0, 120, "120 2")?;
    show_turn(&rt, limits, 0, 360, "refused 5 360")?;
    show_turn(&rt, limits, 400, 361, "refused 5 361")?;
    show_slots(&rt, limits, 3, 8)?;
    show_slots(&rt, limits, 5, 10)?;
    show_weights(&rt, 100, 100, "ok")?;
    show_weights(&rt, 101, 200, "refused 14 101")?;
    show_weights(&rt, 0, 101, "refused 14 101")
}
