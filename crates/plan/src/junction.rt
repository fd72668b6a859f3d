// Looking through drawn edges: the edge between two junctions, and how many leave one.
ghost use Rattle.std.specs.Prelude.{◌≡◌, ◌≤◌, length, count_by, position};
ghost use Rattle.plan.specs.Rows.{joins, leaves};

use crate::row::EdgeRow;

// The number of the edge from `start` to `end`, if there is one.
pub(crate) fn edge_between(edges: &[EdgeRow], start: u32, end: u32) -> Option<usize>
    ensures value { result ≡ position (joins start end) edges.now }
{
    edges.iter().position(|row| u32::from(row.start) == start && u32::from(row.end) == end)
}

// How many of the edges leave the junction.
pub(crate) fn leaving_count(edges: &[EdgeRow], junction: u32) -> usize
    ensures value { result ≡ count_by (leaves junction) edges.now }
{
    // A loop and no chain: slots asks for the degree at every turn, and `filter(..).count()` takes twice the time over the rows.
    let mut count: usize = 0;
    for row in edges {
        if u32::from(row.start) == junction {
            count += 1;
        }
    }
    count
}
