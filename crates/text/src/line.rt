// What a line of a log asks for.
use plan::Change;

/// A line of a log, read.
#[derive(Clone, Copy, PartialEq, Eq, Debug)]
pub enum Line {
    /// Begin a drawing with these sector limits.
    Sectors { s: u32, b: u32, h: u32 },
    /// Change the drawing or its sheet: draw an edge, close or open one, or give it a new length.
    Change(Change),
}
