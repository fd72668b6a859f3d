// Drawing an edge.
ghost use Rattle.std.specs.Prelude.{◌≡◌, ℕ, List, length as length_of, drop, None};
ghost use Rattle.plan.specs.Plans.{lender_of, plan_of, rows_of, spare_of};
ghost use Rattle.plan.specs.Studies.{answered, brought, draw_fault, neighbour_fault, next, put_last, room_fault, spare_left, study_of};
ghost use Rattle.plan.specs.declared.change.Change.TheVariants.{Draw};

use crate::change::NewEdge;
use crate::drawing::Drawing;
use crate::junction::{edge_between, leaving_count};
use crate::row::EdgeRow;
use turns::PlanFault;

// The most edges that are drawn, and the most that leave one junction.
const MOST_EDGES: usize = 1024;

const MOST_LEAVING: usize = 16;

impl Drawing<'_> {
    /// Draws an edge in the next spare row and answers its number, counted from 0.
    ///
    /// Refusals, in their order: 2 where all rows are used or 1,024 edges are drawn, 3 for the junctions, 4 for the length, 5 for the bearings, 6 where an
    /// edge with this start and end is drawn, 7 where 16 edges leave the start. A refusal changes nothing.
    pub fn draw(&mut self, edge: NewEdge) -> Result<u32, PlanFault>
        ensures value { result ≡ answered (draw_fault (rows_of self.old) (plan_of self.old).edges edge) (length_of (plan_of self.old).edges) }
        ensures after { (sheet : List ℕ) → study_of self.new sheet ≡ next (study_of self.old sheet) (Draw edge) }
        ensures spare { spare_of self.new ≡ spare_left result (spare_of self.old) }
        ensures lender { lender_of self.new ≡ lender_of self.old }
    {
        self.check_room()?;
        let row = EdgeRow::try_from(edge)?;
        self.check_neighbours(edge.start, edge.end)?;
        Ok(self.put(row))
    }

    // Whether a spare row is left and fewer than 1,024 edges are drawn.
    fn check_room(&self) -> Result<(), PlanFault>
        ensures value { result ≡ answered (room_fault (rows_of self.now) (plan_of self.now).edges) tt }
    {
        let drawn = self.edges().len();
        if drawn >= self.rows.len() || drawn >= MOST_EDGES {
            return Err(PlanFault::Full(drawn as u32));
        }
        Ok(())
    }

    // Whether no edge leads from `start` to `end` yet, and fewer than 16 leave `start`.
    fn check_neighbours(&self, start: u32, end: u32) -> Result<(), PlanFault>
        ensures value { result ≡ answered (neighbour_fault (plan_of self.now).edges start end) tt }
    {
        let edges = self.edges();
        if let Some(edge) = edge_between(edges, start, end) {
            return Err(PlanFault::Repeated(edge as u32));
        }
        if leaving_count(edges, start) >= MOST_LEAVING {
            return Err(PlanFault::Crowded(start));
        }
        Ok(())
    }

    // Writes a row that passed all checks into the next spare place, and answers its number.
    fn put(&mut self, row: EdgeRow) -> u32
        requires { draw_fault (rows_of self.old) (plan_of self.old).edges (brought row) ≡ None }
        ensures value { result ≡ length_of (plan_of self.old).edges }
        ensures after { plan_of self.new ≡ put_last (plan_of self.old) row }
        ensures rows { rows_of self.new ≡ rows_of self.old }
        ensures spare { spare_of self.new ≡ drop 1 (spare_of self.old) }
        ensures lender { lender_of self.new ≡ lender_of self.old }
    {
        let at = self.count;
        self.rows[at] = row;
        self.count = at + 1;
        at as u32
    }
}
