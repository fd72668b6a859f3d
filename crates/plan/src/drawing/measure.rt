// Correcting the length of a drawn edge in its row.
ghost use Rattle.std.specs.Prelude.{◌≡◌, ℕ, ◌<◌, List, length as length_of, None};
ghost use Rattle.plan.specs.Plans.{lender_of, plan_of, rows_of, spare_of};
ghost use Rattle.plan.specs.Studies.{answered, drawn_fault, length_fault, measured, next, otherwise, study_of};
ghost use Rattle.plan.specs.declared.change.Change.TheVariants.{Measure};

use crate::drawing::Drawing;
use crate::row::check_length;
use turns::PlanFault;

impl Drawing<'_> {
    /// Replaces the length of one drawn edge in its row; every other row stays as it is.
    ///
    /// Refusals, in their order: 4 where the length is outside 1 to 100,000, 8 where the edge is not drawn. A refusal changes nothing.
    pub fn measure(&mut self, edge: u32, length: u32) -> Result<(), PlanFault>
        ensures value { result ≡ answered (otherwise (length_fault length) (drawn_fault (plan_of self.old).edges edge)) tt }
        ensures after { (sheet : List ℕ) → study_of self.new sheet ≡ next (study_of self.old sheet) (Measure edge length) }
        ensures spare { spare_of self.new ≡ spare_of self.old }
        ensures lender { lender_of self.new ≡ lender_of self.old }
    {
        check_length(length)?;
        self.check_drawn(edge)?;
        self.set_length(edge as usize, length);
        Ok(())
    }

    /// Whether an edge is drawn; else refusal 8 with its number.
    pub fn check_drawn(&self, edge: u32) -> Result<(), PlanFault>
        ensures value { result ≡ answered (drawn_fault (plan_of self.now).edges edge) tt }
    {
        if edge as usize >= self.edges().len() {
            return Err(PlanFault::NotDrawn(edge));
        }
        Ok(())
    }

    // Writes a sound length into the row of a drawn edge.
    fn set_length(&mut self, at: usize, length: u32)
        requires { (length_fault length ≡ None) × (at < length_of (plan_of self.old).edges) }
        ensures limits { (plan_of self.new).limits ≡ (plan_of self.old).limits }
        ensures edges { (plan_of self.new).edges ≡ measured (plan_of self.old).edges at length }
        ensures rows { rows_of self.new ≡ rows_of self.old }
        ensures spare { spare_of self.new ≡ spare_of self.old }
        ensures lender { lender_of self.new ≡ lender_of self.old }
    {
        self.rows[at].length = length;
    }
}
