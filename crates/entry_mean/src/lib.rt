// From matrix to search: candidates, the gain of a split, the best split.
// Entry points: whatever is passed in, each ends with an answer or with the refusal, which has changed no lent memory. None has a `requires`.
#![tactic(auto)]

ghost use Rattle.std.specs.Prelude.{length};
ghost use Rattle.control.specs.Refused.{told};
ghost use Rattle.control.specs.Settings.{matrix_of, shortest_of};
ghost use Rattle.optimizer.specs.Records.{best_split_told};
ghost use Rattle.entry_mean.specs.Left.{CandidatesLeft, GainLeft, SearchLeft};

use change_in_mean::ChangeInMean;
use control::{Allowed, Matrix, Refusal};
use optimizer::candidates;
use optimizer::gain::Gain;
use optimizer::optimizer_result::BestSplit;
use rows::{Position, Segment};

// The rows where a segment may be split, ascending, into `rows`; tells how many.
pub fn split_candidates(
    n: usize,
    allowed: Allowed,
    segment: Segment,
    rows: &mut [usize],
) -> Result<usize, Refusal>
    ensures { CandidatesLeft (record { n = n; shortest = shortest_of allowed.entry.shortest; forbidden = allowed.entry.forbidden.now; start = segment.start.0; stop = segment.stop.0; room = length rows.old }) (told (λ k. k) result) rows.old rows.new }
{
    candidates::candidates_refusal(n, allowed, segment, rows.len())?;
    Ok(candidates::split_candidates(allowed, segment, rows))
}

// The gain of splitting a segment at `split`; the prefix sums are left in `sums`.
pub fn gain(
    matrix: Matrix,
    segment: Segment,
    split: Position,
    sums: &mut [f64],
) -> Result<f64, Refusal>
    ensures { GainLeft (record { matrix = matrix_of matrix.entry; start = segment.start.0; stop = segment.stop.0; split = split.0; room = length sums.old }) (told (λ g. g) result) sums.old sums.new }
{
    change_in_mean::gain_refusal(matrix, segment, split, sums.len())?;
    change_in_mean::calculate_cumsum(matrix.cells, matrix.d, sums);
    let len = control::sums_len(matrix.n, matrix.d);
    let gain = ChangeInMean {
        sums: &sums[..len],
        d: matrix.d,
    };
    Ok(gain.gain(segment, split))
}

// The split of a segment with the greatest gain, the first of equal ones; the prefix sums are left in `sums`.
pub fn find_best_split(
    matrix: Matrix,
    allowed: Allowed,
    segment: Segment,
    sums: &mut [f64],
) -> BestSplit
    ensures { SearchLeft (record { matrix = matrix_of matrix.entry; shortest = shortest_of allowed.entry.shortest; forbidden = allowed.entry.forbidden.now; start = segment.start.0; stop = segment.stop.0; room = length sums.old }) (best_split_told result) sums.old sums.new }
{
    if let Err(refusal) = grid_search::search_refusal(matrix, allowed, segment, sums.len()) {
        return BestSplit::Refused(refusal.number());
    }
    change_in_mean::calculate_cumsum(matrix.cells, matrix.d, sums);
    let len = control::sums_len(matrix.n, matrix.d);
    let gain = ChangeInMean {
        sums: &sums[..len],
        d: matrix.d,
    };
    grid_search::find_best_split(gain, allowed, segment)
}
