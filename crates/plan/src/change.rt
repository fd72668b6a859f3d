// The calls that change a study, as data.

/// An edge as a caller brings it to be drawn, sound or not.
#[derive(Clone, Copy, PartialEq, Eq, Debug)]
pub struct NewEdge {
    /// The junction that the edge leaves.
    pub start: u32,
    /// The junction at which it arrives.
    pub end: u32,
    /// Its length in decimetres.
    pub length: u32,
    /// The bearing on which it leaves its start.
    pub leaving: u32,
    /// The bearing on which it arrives at its end.
    pub arriving: u32,
}

/// A change of a study as a caller brings it, sound or not.
#[derive(Clone, Copy, PartialEq, Eq, Debug)]
pub enum Change {
    /// Draw an edge.
    Draw(NewEdge),
    /// Correct the length of an edge.
    Measure { edge: u32, length: u32 },
    /// Shut an open edge.
    Close { edge: u32 },
    /// Open a shut edge.
    Open { edge: u32 },
}
