// Steps between drawn edges, and the degree of a junction, as turn rules read them.
ghost use Rattle.std.specs.Prelude.{◌≡◌};
ghost use Rattle.plan.specs.Plans.{degree, plan_of, step_found};

use crate::drawing::Drawing;
use crate::junction::leaving_count;
use turns::{Class, turn};

impl Drawing<'_> {
    /// How many drawn edges leave the junction, shut ones too.
    pub fn degree(&self, junction: u32) -> u32
        ensures value { result ≡ degree (plan_of self.now) junction }
    {
        leaving_count(self.edges(), junction) as u32
    }

    /// The class of the step from one edge to another, or none where no step leads there.
    ///
    /// A step leads from e to f when both are drawn, f starts where e ends and f does not end where e starts.
    pub fn step(&self, from: u32, to: u32) -> Option<Class>
        ensures value { result ≡ step_found (plan_of self.now) from to }
    {
        let edges = self.edges();
        let before = edges.get(from as usize)?;
        let next = edges.get(to as usize)?;
        if next.start != before.end || next.end == before.start {
            return None;
        }
        let arriving = u32::from(before.arriving);
        let leaving = u32::from(next.leaving);
        let (_, class) = turn(self.limits(), arriving, leaving).ok()?;
        Some(class)
    }
}
