// Stored records: the searches of a run's stored segments, without a tree.
// Entry points: whatever is passed in, each ends with an answer or with the refusal, which has changed no lent memory. None has a `requires`.
// The lent slices stay apart: a struct of `&mut` slices would be built for one call and taken apart in it, and the contract names each.
#![tactic(auto)]

ghost use Rattle.control.specs.Settings.{matrix_of, shortest_of, source_of};
ghost use Rattle.entry_segments.specs.Left.{StoredLeft};

use control::{Allowed, Matrix, Refusal, Source};

// The records of the stored segments, in order: start, stop, best split and the origin's kind and number of each into `rows`, its gain into `gains`. The
// segments are the seeded ones of all layers, whose values are the Rust's alpha_k, or the draws, start and stop of each in turn, until w records stand. A
// segment without a candidate leaves no record. The prefix sums are left in `sums`. Tells how many records.
pub fn stored_segments(
    matrix: Matrix,
    allowed: Allowed,
    source: Source,
    sums: &mut [f64],
    rows: &mut [usize],
    gains: &mut [f64],
) -> Result<usize, Refusal>
    ensures { StoredLeft (matrix_of matrix.entry) (shortest_of allowed.entry.shortest) allowed.entry.forbidden.now (source_of source.entry) result (record { sums = sums.old; rows = rows.old; gains = gains.old }) (record { sums = sums.new; rows = rows.new; gains = gains.new }) }
{
    let room = control::record_room(rows.len(), gains.len());
    segmentation::stored_refusal(matrix, allowed, source, sums.len(), room)?;
    Ok(segmentation::store_segments(matrix, allowed, source, sums, rows, gains))
}
