// Each row's order of all rows by squared distance. Inside the library. After classifier/knn.rs.
#![tactic(auto)]

ghost use Rattle.std.specs.Prelude.{◌≡◌, ◌+◌, ◌-◌, ◌*◌, ◌<◌, ◌≤◌, length};
ghost use Rattle.scope.specs.Lists.{holding};
ghost use Rattle.scope.specs.Neighbours as scope;
ghost use Rattle.distances.specs.Matrix.{Orderable};

use control::Matrix;
use order::order_row;
use rows::Position;

// The squared distance of two rows. By column: over the two rows zipped it was slower, by 4% at 8 columns and 19% at 3.
fn square_distance(matrix: Matrix, i: Position, j: Position) -> f64
    requires { (length matrix.cells.now ≤ 65536) × (i.0 * matrix.d + matrix.d ≤ length matrix.cells.now) × (j.0 * matrix.d + matrix.d ≤ length matrix.cells.now) }
    ensures { result ≡ scope.squares matrix.entry.cells.now matrix.entry.d i.0 j.0 matrix.entry.d }
{
    let a = i.0 * matrix.d;
    let b = j.0 * matrix.d;
    let mut sum = 0.0;
    for c in 0..matrix.d {
        let difference = matrix.cells[a + c] - matrix.cells[b + c];
        sum = sum + difference * difference;
    }
    sum
}

// The squared distances of row i to all rows.
fn distances_from(matrix: Matrix, i: Position, ds: &mut [f64])
    requires { (matrix.d ≤ 64) × (length ds.old ≤ 1024) × (i.0 < length ds.old) × (length matrix.cells.now ≡ length ds.old * matrix.d) }
    ensures { ds.new ≡ scope.distances matrix.entry.cells.now matrix.entry.d i.0 (length ds.old) }
{
    for (j, distance) in ds.iter_mut().enumerate() {
        *distance = square_distance(matrix, i, Position(j));
    }
}

// The orders of all rows, one after another. The last row's distances stay. By row: chunks of `ordering`, which may hold more than n, are no plainer.
pub fn calculate_ordering(matrix: Matrix, ordering: &mut [u32], distances: &mut [f64])
    requires { Orderable matrix.cells.now matrix.n matrix.d × (matrix.n * matrix.n ≤ length ordering.old) × (matrix.n ≤ length distances.old) }
    ensures orders { ordering.new ≡ holding (scope.orders matrix.entry.cells.now matrix.entry.n matrix.entry.d matrix.entry.n) ordering.old }
    ensures last { distances.new ≡ holding (scope.distances matrix.entry.cells.now matrix.entry.d (matrix.entry.n - 1) matrix.entry.n) distances.old }
{
    let n = matrix.n;
    for i in 0..n {
        let first = i * n;
        let end = first + n;
        distances_from(matrix, Position(i), &mut distances[..n]);
        order_row(&distances[..n], &mut ordering[first..end]);
    }
}
