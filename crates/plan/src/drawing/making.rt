// Making a drawing, and reading it.
ghost use Rattle.std.specs.Prelude.{◌≡◌, [], ◌++◌, length};
ghost use Rattle.turns.specs.Sectors.{limits_of};
ghost use Rattle.plan.specs.Plans.{Sound, lender_of, plan_of, rows_of, spare_of};

use crate::drawing::Drawing;
use crate::row::EdgeRow;
use turns::Sectors;

impl<'a> Drawing<'a> {
    /// An empty drawing over the limits and the rows that are brought. It cannot fail.
    #[tactic(auto, unfolding(crate::specs::Plans::plan_of, crate::specs::Plans::spare_of))]
    pub fn new(limits: Sectors, rows: &'a mut [EdgeRow]) -> Drawing<'a>
        ensures limits { (plan_of result).limits ≡ limits_of limits }
        ensures edges { (plan_of result).edges ≡ [] }
        ensures spare { spare_of result ≡ rows.old }
        ensures rows { rows_of result ≡ length rows.old }
        ensures lender { lender_of result ≡ rows.entry.ghost_name }
    {
        Drawing {
            limits,
            rows,
            count: 0,
        }
    }

    /// Ends the drawing and gives its rows back: the drawn edges come first, and the spare rows lie behind them as they were.
    pub fn release(self)
        ensures after { self.exit.1.0.now ≡ (plan_of self.entry).edges ++ spare_of self.entry }
    {
        let Drawing {
            limits: _,
            rows: _,
            count: _,
        } = self;
    }

    /// The drawn edges, by number. They are sound: what the type promises of its rows is promised of them.
    pub fn edges(&self) -> &[EdgeRow]
        ensures value { result.now ≡ (plan_of self.now).edges }
        ensures sound { Sound (plan_of self.now) }
    {
        &self.rows[0..self.count]
    }

    /// The sector limits.
    #[tactic(auto, unfolding(crate::specs::Plans::plan_of))]
    pub fn limits(&self) -> &Sectors
        ensures value { limits_of result.now ≡ (plan_of self.now).limits }
    {
        &self.limits
    }
}
