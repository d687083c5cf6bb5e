// The refusals that apply to a call about neighbours: the lowest number first, before anything is stored.
ghost use Rattle.std.specs.Prelude.{◌≡◌};
ghost use Rattle.scope.specs.Calls.{ordering_refusal, predict_refusal};
ghost use Rattle.control.specs.Refused.{number_in};
ghost use Rattle.control.specs.Settings.{matrix_of};

use control::{Matrix, Refusal};
use rows::{Position, Segment};

// Of a call for the ordering, with room for so many entries of the ordering and so many distances.
#[tactic(auto, unfolding(scope::specs::Calls::ordering_refusal))]
pub fn ordering_refusal(matrix: Matrix, ordering: usize, distances: usize) -> Result<(), Refusal>
    ensures { number_in result ≡ ordering_refusal (record { matrix = matrix_of matrix.entry; ordering = ordering; distances = distances }) }
{
    if control::wrong_matrix(matrix, control::MOST_NEIGHBOURS) {
        return Err(Refusal::Sizes);
    }
    if !control::all_finite(matrix.cells) {
        return Err(Refusal::NotFinite);
    }
    if ordering < matrix.n * matrix.n {
        return Err(Refusal::Room);
    }
    if distances < matrix.n {
        return Err(Refusal::Room);
    }
    Ok(())
}

// Of a call for predictions, with room for so many of them.
#[tactic(auto, unfolding(scope::specs::Calls::ordering_refusal, scope::specs::Calls::predict_refusal))]
pub fn predict_refusal(
    matrix: Matrix,
    segment: Segment,
    split: Position,
    ordering: usize,
    distances: usize,
    room: usize,
) -> Result<(), Refusal>
    ensures { number_in result ≡ predict_refusal (record { order = record { matrix = matrix_of matrix.entry; ordering = ordering; distances = distances }; start = segment.start.0; stop = segment.stop.0; split = split.0; room = room }) }
{
    ordering_refusal(matrix, ordering, distances)?;
    if room < segment.length() {
        return Err(Refusal::Room);
    }
    if control::wrong_segment(matrix.n, segment) {
        return Err(Refusal::Segment);
    }
    if control::wrong_split(segment, split) {
        return Err(Refusal::Segment);
    }
    if segment.start == segment.stop {
        return Err(Refusal::Segment);
    }
    Ok(())
}
