// The search over the candidates of a segment. Inside the library. After optimizer/grid_search.rs.
#![tactic(auto)]

ghost use Rattle.std.specs.Prelude.{◌≡◌, ◌+◌, ◌*◌, ◌≤◌, length};
ghost use Rattle.scope.specs.Gain.{gain_of};
ghost use Rattle.scope.specs.Calls.{search_refusal};
ghost use Rattle.control.specs.Refused.{number_in, told};
ghost use Rattle.control.specs.Settings.{matrix_of, shortest_of};
ghost use Rattle.optimizer.specs.Records.{to_record, best_split_told, split_found, searched};
ghost use Rattle.optimizer.specs.Searchable.{Searchable};

use change_in_mean::ChangeInMean;
use control::{Allowed, Matrix, Refusal};
use optimizer::candidates;
use optimizer::gain::greatest;
use optimizer::optimizer_result::{BestSplit, GainRecord};
use rows::Segment;

// The record of the best split of a segment, or refusal 9 or 10: what the tree and the stored records take over.
#[tactic(auto, using(scope::proofs::Candidates::nine_from), unfolding(optimizer::specs::Records::searched))]
pub fn search_segment(
    gain: ChangeInMean,
    allowed: Allowed,
    segment: Segment,
) -> Result<GainRecord, Refusal>
    requires start_le_stop { Searchable segment allowed.shortest }
    requires d_in_bounds { (segment.stop.0 + 1) * gain.d ≤ length gain.sums.now }
    ensures { told to_record result ≡ searched (gain_of gain.entry.sums.now gain.entry.d) (shortest_of allowed.entry.shortest) allowed.entry.forbidden.now segment.start.0 segment.stop.0 }
{
    if allowed.shortest.too_long_for(segment.length()) {
        return Err(Refusal::TooShort);
    }
    if candidates::all_barred(allowed, segment) {
        return Err(Refusal::AllBarred);
    }
    Ok(greatest(&gain, allowed, segment, GainRecord::blank(segment)))
}

// The best split of a segment and its gain, or refusal 9 or 10.
pub fn find_best_split(gain: ChangeInMean, allowed: Allowed, segment: Segment) -> BestSplit
    requires start_le_stop { Searchable segment allowed.shortest }
    requires d_in_bounds { (segment.stop.0 + 1) * gain.d ≤ length gain.sums.now }
    ensures { best_split_told result ≡ split_found (searched (gain_of gain.entry.sums.now gain.entry.d) (shortest_of allowed.entry.shortest) allowed.entry.forbidden.now segment.start.0 segment.stop.0) }
{
    match search_segment(gain, allowed, segment) {
        Ok(found) => found.best(),
        Err(refusal) => BestSplit::Refused(refusal.number()),
    }
}

// The refusal that applies to a call for a search.
#[tactic(auto, unfolding(scope::specs::Calls::search_refusal))]
pub fn search_refusal(
    matrix: Matrix,
    allowed: Allowed,
    segment: Segment,
    room: usize,
) -> Result<(), Refusal>
    ensures { number_in result ≡ search_refusal (record { matrix = matrix_of matrix.entry; shortest = shortest_of allowed.entry.shortest; forbidden = allowed.entry.forbidden.now; start = segment.start.0; stop = segment.stop.0; room = room }) }
{
    control::sizes_refusal(matrix, allowed.shortest)?;
    control::values_refusal(matrix.cells, allowed.forbidden)?;
    if room < control::sums_len(matrix.n, matrix.d) {
        return Err(Refusal::Room);
    }
    candidates::segment_refusal(matrix.n, allowed, segment)
}
