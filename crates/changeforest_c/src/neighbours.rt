// The ordering and the predictions, exported.
ghost use Rattle.entry_neighbours.specs.Left.{OrderingLeft, PredictLeft};

use control::Matrix;
use rows::{Position, Segment};

// Each row's order of all rows into ordering, row after row; the last row's distances are left in distances.
#[unsafe(no_mangle)]
pub extern "C" fn changeforest_ordering(
    cells: &[f64],
    n: usize,
    d: usize,
    ordering: &mut [u32],
    distances: &mut [f64],
) -> u32
    ensures { OrderingLeft (record { cells = cells.now; n = n; d = d }) result (record { ordering = ordering.old; distances = distances.old }) (record { ordering = ordering.new; distances = distances.new }) }
{
    told::tell_done(entry_neighbours::ordering(Matrix { cells, n, d }, ordering, distances))
}

// For each row of [start, stop), the share of its neighbours there at or past split, into predictions.
#[unsafe(no_mangle)]
pub extern "C" fn changeforest_predict(
    cells: &[f64],
    n: usize,
    d: usize,
    start: usize,
    stop: usize,
    split: usize,
    ordering: &mut [u32],
    distances: &mut [f64],
    predictions: &mut [f64],
) -> u32
    ensures { PredictLeft (record { cells = cells.now; n = n; d = d }) start stop split result (record { order = record { ordering = ordering.old; distances = distances.old }; predictions = predictions.old }) (record { order = record { ordering = ordering.new; distances = distances.new }; predictions = predictions.new }) }
{
    let matrix = Matrix { cells, n, d };
    let segment = Segment {
        start: Position(start),
        stop: Position(stop),
    };
    let answer = entry_neighbours::predict(
        matrix,
        segment,
        Position(split),
        ordering,
        distances,
        predictions,
    );
    told::tell_done(answer)
}
