// Nearest neighbours: each row's order of all rows, and the predictions for a segment.
// Entry points: whatever is passed in, each ends with an answer or with a refusal, which has changed no lent memory. None has a `requires`.
// The lent slices stay apart: a struct of `&mut` slices would be built for one call and taken apart in it, and the contract names each.
#![tactic(auto)]

mod refusals;

ghost use Rattle.control.specs.Refused.{number_in};
ghost use Rattle.control.specs.Settings.{matrix_of};
ghost use Rattle.entry_neighbours.specs.Left.{OrderingLeft, PredictLeft};

use control::{Matrix, Refusal};
use rows::{Position, Segment};

// Each row's order of all rows by distance, equal ones by lower index, into `ordering`, row after row; the last row's distances are left
// in `distances`.
#[tactic(auto, unfolding(scope::specs::Calls::ordering_call))]
pub fn ordering(matrix: Matrix, ordering: &mut [u32], distances: &mut [f64]) -> Result<(), Refusal>
    ensures { OrderingLeft (matrix_of matrix.entry) (number_in result) (record { ordering = ordering.old; distances = distances.old }) (record { ordering = ordering.new; distances = distances.new }) }
{
    refusals::ordering_refusal(matrix, ordering.len(), distances.len())?;
    distances::calculate_ordering(matrix, ordering, distances);
    Ok(())
}

// For each row of the segment, the share of its nearest neighbours there that stand at or past `split`, into `predictions`; the
// ordering's room is filled first.
#[tactic(auto, unfolding(scope::specs::Calls::predict_call))]
pub fn predict(
    matrix: Matrix,
    segment: Segment,
    split: Position,
    ordering: &mut [u32],
    distances: &mut [f64],
    predictions: &mut [f64],
) -> Result<(), Refusal>
    ensures { PredictLeft (matrix_of matrix.entry) segment.start.0 segment.stop.0 split.0 (number_in result) (record { order = record { ordering = ordering.old; distances = distances.old }; predictions = predictions.old }) (record { order = record { ordering = ordering.new; distances = distances.new }; predictions = predictions.new }) }
{
    refusals::predict_refusal(
        matrix,
        segment,
        split,
        ordering.len(),
        distances.len(),
        predictions.len(),
    )?;
    distances::calculate_ordering(matrix, ordering, distances);
    knn::predict(matrix, segment, split, ordering, predictions);
    Ok(())
}
