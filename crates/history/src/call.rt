// The calls of a study, as data.
use plan::Change;

/// A call of a study as a caller brings it, sound or not: a change of the drawing or its closing sheet, or a question.
#[derive(Clone, Copy)]
pub enum Call<R, C> {
    /// Draw or measure an edge, or close or open one.
    Change(Change),
    // No `Question`: that is asked over a drawing, and holds its rule and its cost by reference; a call in a list owns them.
    /// Ask for the simplest walk between two edges, by a turn rule and a cost of which only the settings are read.
    Ask {
        first: u32,
        last: u32,
        rule: R,
        cost: C,
    },
}
