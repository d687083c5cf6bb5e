// What every call checks before it stores anything: sizes, finite values, forbidden pairs, segments and splits. Inside the library.
// Each test is one of document 01's table of refusals; refusal.rt has its lines, settings.rt what calls are asked with.
#![tactic(auto)]

ghost use Rattle.std.specs.Prelude.{◌≡◌, [], ◌∷◌, ◌+◌, ◌*◌, ◌/◌, ◌≤◌, min};
ghost use Rattle.scope.specs.Floats.{is_finite};
ghost use Rattle.scope.specs.Lists.{every};
ghost use Rattle.scope.specs.Tree.{most_nodes};
ghost use Rattle.scope.specs.Refusals.{first_of, most_rows, outside, wrong_sizes, wrong_matrix, is_between, well_paired, wrong_segment, wrong_split, no1, no1_rows, no2, no4, no5};
ghost use Rattle.control.specs.Refused.{number_in};
ghost use Rattle.control.specs.Settings.{matrix_of, shortest_of};

pub mod refusal;
pub mod settings;

pub use refusal::Refusal;
use rows::{Position, Segment};
pub use settings::{Allowed, Matrix, Settings, Shortest, Source};

// Sizes.
pub const MOST_ROWS: usize = 4096;

pub const MOST_COLUMNS: usize = 64;

pub const MOST_LENGTH: usize = 4096;

pub const MOST_NEIGHBOURS: usize = 1024;

// Whether v is not one of 1 to most.
#[tactic(auto, unfolding(scope::specs::Refusals::outside))]
pub fn is_outside(most: usize, v: usize) -> bool
    ensures { result ≡ outside most v }
{
    v < 1 || most < v
}

// Whether v is neither infinite nor NaN. By two comparisons: std's `is_finite` takes the value from itself, which at an infinite one raises the processor's
// flag of an invalid operation, or ends a host that has the trap on; a refusal is to change nothing.
pub fn is_finite(v: f64) -> bool
    ensures { result ≡ is_finite v }
{
    v < f64::INFINITY && f64::NEG_INFINITY < v
}

// Whether all values are finite.
#[tactic(auto, unfolding(scope::specs::Lists::every))]
pub fn all_finite(values: &[f64]) -> bool
    ensures { result ≡ every is_finite values.now }
{
    values.iter().all(|value| is_finite(*value))
}

// Whether x lies strictly between low and high.
#[tactic(auto, unfolding(scope::specs::Refusals::is_between))]
pub fn is_between(low: f64, high: f64, x: f64) -> bool
    ensures { result ≡ is_between low high x }
{
    low < x && x < high
}

// Whether n rows, most at most, of d columns are a size that is refused.
pub fn wrong_sizes(n: usize, d: usize, most: usize) -> bool
    ensures { result ≡ wrong_sizes most n d }
{
    is_outside(most, n) || is_outside(MOST_COLUMNS, d)
}

// Whether the matrix has a size that is refused, or its cells are not n*d.
#[tactic(auto, unfolding(scope::specs::Refusals::wrong_matrix))]
pub fn wrong_matrix(matrix: Matrix, most: usize) -> bool
    requires { most ≤ 4096 }
    ensures { result ≡ wrong_matrix most matrix.entry.cells.now matrix.entry.n matrix.entry.d }
{
    wrong_sizes(matrix.n, matrix.d, most) || matrix.cells.len() != matrix.n * matrix.d
}

// How many prefix sums n rows of d columns have.
pub fn sums_len(n: usize, d: usize) -> usize
    requires { (n ≤ 4096) × (d ≤ 64) }
    ensures { result ≡ (n + 1) * d }
{
    (n + 1) * d
}

// Whether the forbidden list consists of pairs with a <= b.
pub fn well_paired(forbidden: &[usize]) -> bool
    ensures { result ≡ well_paired forbidden.now }
{
    for pair in forbidden.chunks_exact(2) {
        if pair[1] < pair[0] {
            return false;
        }
    }
    forbidden.len() % 2 == 0
}

// Whether it is no segment of n rows.
#[tactic(auto, unfolding(scope::specs::Refusals::wrong_segment))]
pub fn wrong_segment(n: usize, segment: Segment) -> bool
    ensures { result ≡ wrong_segment n segment.start.0 segment.stop.0 }
{
    segment.stop < segment.start || n < segment.stop.0
}

// Whether a split lies outside its segment.
#[tactic(auto, unfolding(scope::specs::Refusals::wrong_split))]
pub fn wrong_split(segment: Segment, split: Position) -> bool
    ensures { result ≡ wrong_split segment.start.0 segment.stop.0 split.0 }
{
    split < segment.start || segment.stop < split
}

// B, the most nodes that a tree of n rows has.
pub fn most_nodes(n: usize, shortest: Shortest) -> usize
    requires { (n ≤ 4096) × (1 ≤ shortest.m) }
    ensures { (result ≡ most_nodes n (shortest_of shortest)) × (result ≤ 8192) }
{
    if n < 1 {
        return 1;
    }
    let q = shortest.shared_rows(n) / shortest.m;
    if q < 1 {
        return 1;
    }
    2 * q - 1
}

// How many records fit where each takes five whole numbers and one gain.
pub fn record_room(rows: usize, gains: usize) -> usize
    ensures { result ≡ min (rows / 5) gains }
{
    gains.min(rows / 5)
}

// ---- the tests that several calls begin with, in number order: the first that applies

// 1 and 2: a matrix and the shortest part.
pub fn sizes_refusal(matrix: Matrix, shortest: Shortest) -> Result<(), Refusal>
    ensures { number_in result ≡ first_of (no1 most_rows (matrix_of matrix.entry) ∷ no2 (shortest_of shortest) ∷ []) }
{
    if wrong_matrix(matrix, MOST_ROWS) {
        return Err(Refusal::Sizes);
    }
    if is_outside(MOST_LENGTH, shortest.m) {
        return Err(Refusal::Length);
    }
    Ok(())
}

// 4 and 5: cells and forbidden pairs.
pub fn values_refusal(cells: &[f64], forbidden: &[usize]) -> Result<(), Refusal>
    ensures { number_in result ≡ first_of (no4 cells.now ∷ no5 forbidden.now ∷ []) }
{
    if !all_finite(cells) {
        return Err(Refusal::NotFinite);
    }
    if !well_paired(forbidden) {
        return Err(Refusal::Pairs);
    }
    Ok(())
}

// 1, 2 and 5 where there is no matrix.
pub fn rows_refusal(n: usize, allowed: Allowed) -> Result<(), Refusal>
    ensures { number_in result ≡ first_of (no1_rows n ∷ no2 (shortest_of allowed.entry.shortest) ∷ no5 allowed.entry.forbidden.now ∷ []) }
{
    if is_outside(MOST_ROWS, n) {
        return Err(Refusal::Sizes);
    }
    if is_outside(MOST_LENGTH, allowed.shortest.m) {
        return Err(Refusal::Length);
    }
    if !well_paired(allowed.forbidden) {
        return Err(Refusal::Pairs);
    }
    Ok(())
}
