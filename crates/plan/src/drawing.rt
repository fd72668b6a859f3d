// The drawing: sector limits, the rows that the caller brought, and how many of them are drawn.
ghost use Rattle.std.specs.Prelude.{◌≡◌, ℕ, ◌<◌, ◌≤◌, true, length, take, count_by, slice_index_or};
ghost use Rattle.plan.specs.Rows.{fine, joins, leaves};
ghost use Rattle.plan.specs.declared.row.EdgeRow.{EdgeRow};

use crate::row::EdgeRow;
use turns::Sectors;

/// A drawing over a lent list of rows. The first rows are the drawn edges, numbered from 0; the others are spare.
///
/// The rows are lent by the caller, and nothing here takes memory: so it is a list and a count, and no `Vec`. Which list is lent (`lender_of`) stands in the
/// contract of each call that changes the drawing, since a type says nothing of two moments.
///
/// Every drawn row is within its bounds, no two drawn edges share both start and end, at most 16 leave one junction, and at most 1,024 are drawn.
pub struct Drawing<'a> {
    limits: Sectors,
    rows: &'a mut [EdgeRow],
    count: usize,
    ghost within: { count ≤ length rows.now },
    ghost few: { count ≤ 1024 },
    ghost bounds: { (k : ℕ) (d : EdgeRow) → k < count → fine (slice_index_or rows.now k d) ≡ true },
    ghost single: { (s e : ℕ) → count_by (joins s e) (take count rows.now) ≤ 1 },
    ghost narrow: { (s : ℕ) → count_by (leaves s) (take count rows.now) ≤ 16 },
}

mod draw;
mod making;
mod measure;
