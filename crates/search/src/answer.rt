// The answer to a question.

/// The simplest walk's cost, its number of edges, the sum of its charges and the sum of its lengths. Its edges are in the route list.
#[derive(Clone, Copy)]
pub struct Answer<C> {
    /// The cost of the walk.
    pub cost: C,
    /// How many edges the walk has.
    pub edges: u32,
    /// The sum of the charges of its steps.
    pub charge: u32,
    /// The sum of the lengths of its edges, in decimetres.
    pub length: u32,
}
