// Counting the steps out of an edge by their class.
ghost use Rattle.std.specs.Prelude.{◌≡◌, ◌≤◌, length};
ghost use Rattle.plan.specs.Plans.{plan_of};
ghost use Rattle.rules.specs.Ambiguity.{other};
ghost use Rattle.rules.specs.Charges.{below};

use plan::Drawing;
use turns::Class;

// How many steps out of the edge `from` are in the class, leaving out any to the edge `to`.
pub(crate) fn other_steps(drawing: &Drawing<'_>, from: u32, to: u32, class: Class) -> u32
    ensures value { result ≡ below (other (plan_of drawing.now) from class to) (length (plan_of drawing.now).edges) }
{
    // A loop and no chain: the rows are counted with their index, in the form that this rule has in the project.
    let mut count = 0;
    for (at, _row) in drawing.edges().iter().enumerate() {
        count += u32::from(is_other(drawing, from, to, class, at as u32));
    }
    count
}

// Whether a step other than that to `to` leads from `from` to `next` in the class.
fn is_other(drawing: &Drawing<'_>, from: u32, to: u32, class: Class, next: u32) -> bool
    ensures value { result ≡ other (plan_of drawing.now) from class to next }
{
    next != to && drawing.step(from, next) == Some(class)
}
