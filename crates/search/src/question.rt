// What a question brings, and its checks.
ghost use Rattle.std.specs.Prelude.{◌≡◌, length};

use crate::fault::QuestionFault;
use plan::Drawing;

/// A question: what it is asked over, and between which edges.
#[derive(Drop)]
pub struct Question<'q, 'd, R, C> {
    /// The drawing.
    pub drawing: &'q Drawing<'d>,
    /// The closing sheet: the byte of a shut edge is not 0.
    pub sheet: &'q [u8],
    /// The turn rule.
    pub rule: &'q R,
    /// What is added up: a cost, of which only the settings are read.
    pub cost: &'q C,
    /// The first edge of the walk.
    pub first: u32,
    /// The last edge of the walk.
    pub last: u32,
}

impl<R, C> Question<'_, '_, R, C> {
    ghost use Rattle.search.specs.Grounds.{drawn_in};
    ghost use Rattle.search.specs.Questions.{checked, fault_by};

    // Whether both edges are drawn, and the sheet and the three lists of these lengths are long enough.
    pub(crate) fn check(
        &self,
        labels: usize,
        queue: usize,
        route: usize,
    ) -> Result<(), QuestionFault>
        ensures value { result ≡ checked (fault_by (drawn_in self.now) self.now.first self.now.last (length self.now.sheet.now) labels queue route) }
    {
        let drawn = self.drawing.edges().len();
        if self.first as usize >= drawn {
            return Err(QuestionFault::NotDrawn(self.first));
        }
        if self.last as usize >= drawn {
            return Err(QuestionFault::NotDrawn(self.last));
        }
        if self.sheet.len() < drawn || labels < drawn || queue < drawn || route < drawn {
            return Err(QuestionFault::Short(drawn as u32));
        }
        Ok(())
    }
}
