// k nearest neighbours: the share of a row's k nearest that stand at or past a split. Inside the library. After classifier/knn.rs.
#![tactic(auto)]

ghost use Rattle.std.specs.Prelude.{◌≡◌, ◌-◌, ◌<◌, ◌≤◌, leb, length, filter, take};
ghost use Rattle.scope.specs.Lists.{holding};
ghost use Rattle.scope.specs.Neighbours as scope;
ghost use Rattle.distances.specs.Matrix.{Filled};
ghost use Rattle.knn.specs.Near.{is_near};

use control::Matrix;
use rounding::whole_root;
use rows::{Offset, Position, Segment};

// Whether `other` can be a neighbour of `row`: a row of the segment, and not the row itself.
fn is_neighbour(segment: Segment, row: Position, other: Position) -> bool
    ensures { result ≡ is_near segment.start.0 segment.stop.0 row.0 other.0 }
{
    other != row && segment.start <= other && other < segment.stop
}

// How many of a row's k nearest neighbours in the segment stand at or past the split. The row itself is dropped from its order, wherever it
// stands.
fn count_past(order: &[u32], segment: Segment, row: Position, split: Position, k: usize) -> usize
    ensures { result ≡ length (filter (leb split.0) (take k (filter (is_near segment.start.0 segment.stop.0 row.0) order.now))) }
{
    order
        .iter()
        .filter(|other| is_neighbour(segment, row, Position(**other as usize)))
        .take(k)
        .filter(|other| split <= Position(**other as usize))
        .count()
}

// For each row of the segment the share of its neighbours that stand at or past the split. That `ordering` holds the orders of
// the matrix is for the caller to see to: only the contract reads `matrix.cells` and `matrix.d`.
pub fn predict(
    matrix: Matrix,
    segment: Segment,
    split: Position,
    ordering: &[u32],
    predictions: &mut [f64],
)
    requires { Filled matrix.cells.now matrix.n matrix.d ordering.now × (segment.start.0 < segment.stop.0) × (segment.stop.0 ≤ matrix.n) × (segment.stop.0 - segment.start.0 ≤ length predictions.old) }
    ensures { predictions.new ≡ holding (scope.predictions matrix.entry.cells.now matrix.entry.n matrix.entry.d segment.start.0 segment.stop.0 split.0 (segment.stop.0 - segment.start.0)) predictions.old }
{
    let length = segment.length();
    let k = whole_root(length);
    for (i, prediction) in predictions[..length].iter_mut().enumerate() {
        let row = Offset(i).position_from(segment.start);
        let first = row.0 * matrix.n;
        let end = first + matrix.n;
        let count = count_past(&ordering[first..end], segment, row, split, k);
        *prediction = (count as f64) / (k as f64);
    }
}
