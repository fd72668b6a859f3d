// A question that passed its checks.
ghost use Rattle.std.specs.Prelude.{◌<◌, ◌≤◌, length};
ghost use Rattle.search.specs.Grounds.{drawn_in};

use crate::question::Question;

/// A question between two drawn edges, with a byte of the sheet for each drawn edge.
#[derive(Drop)]
pub(crate) struct Ground<'q, 'd, R, C> {
    pub(crate) question: &'q Question<'q, 'd, R, C>,
    ghost covered: { drawn_in question.now ≤ length question.now.sheet.now },
    ghost from: { question.now.first < drawn_in question.now },
    ghost to: { question.now.last < drawn_in question.now },
}
