// What a search keeps for each edge.

/// What is known of one edge after a search: the cost, the number of edges and the previous edge of the simplest walk to it.
///
/// The first edge has no previous edge and holds 65,535 there; an edge to which no walk leads holds the empty cost, 0 edges and 65,535.
#[derive(Clone, Copy)]
pub struct Label<C> {
    /// The cost of the walk.
    pub cost: C,
    /// How many edges the walk has; 0 where there is none.
    pub edges: u32,
    /// The edge before the last one of the walk.
    pub previous: u16,
}

/// The label's word for no edge.
pub const NO_EDGE: u16 = 65_535;
