// Prefix sums of a matrix, row after row, and the gain of a split from them. Inside the library. After gain/change_in_mean.rs.
#![tactic(auto)]

ghost use Rattle.std.specs.Prelude.{◌≡◌, ◌++◌, ◌+◌, ◌*◌, ◌<◌, ◌≤◌, length, drop, replicate};
ghost use Rattle.scope.specs.Floats.{+0};
ghost use Rattle.scope.specs.Lists.{holding};
ghost use Rattle.scope.specs.Sums.{flat_sums};
ghost use Rattle.scope.specs.Gain.{term, terms, gain_of};
ghost use Rattle.scope.specs.Calls.{gain_refusal};
ghost use Rattle.scope.specs.Feed.{fed_sums};
ghost use Rattle.control.specs.Refused.{number_in};
ghost use Rattle.control.specs.Settings.{matrix_of};

use control::{Matrix, Refusal};
use optimizer::gain::Gain;
use rows::{Position, Segment};

// C[0] = 0 in every column: the first d sums.
pub fn clear_first_row(sums: &mut [f64], d: usize)
    requires { d ≤ length sums.old }
    ensures { sums.new ≡ replicate d +0 ++ drop d sums.old }
{
    sums[..d].fill(0.0);
}

// The prefix sums of cells that come behind `count` others: C[i+1] = (0 + x[i]) + C[i] per column, in one flat pass. C[i] stands d entries before.
// By number: what a sum is made of stands in the same slice, so `zip` would be no plainer.
#[tactic(auto, unfolding(scope::specs::Feed::fed_sums))]
pub fn add_cells(cells: &[f64], d: usize, count: usize, sums: &mut [f64])
    requires { d + count + length cells.now ≤ length sums.old }
    ensures { sums.new ≡ fed_sums cells.now d count sums.old (length cells.now) }
{
    for (k, cell) in cells.iter().enumerate() {
        sums[d + count + k] = (0.0 + *cell) + sums[count + k];
    }
}

// The prefix sums of all cells.
#[tactic(auto, using(crate::proofs::Cumsum::sums_whole))]
pub fn calculate_cumsum(cells: &[f64], d: usize, sums: &mut [f64])
    requires { (0 < d) × (d + length cells.now ≤ length sums.old) }
    ensures { sums.new ≡ holding (flat_sums cells.now d (length cells.now)) sums.old }
{
    clear_first_row(sums, d);
    add_cells(cells, d, 0, sums);
}

// The gain in the mean, from the prefix sums of d columns.
#[derive(Clone, Copy)]
pub struct ChangeInMean<'a> {
    pub sums: &'a [f64],
    pub d: usize,
}

// t*t with t = (s1*C[stop] + s2*C[start]) - s*C[x], the entries of one column being at stop, start and x.
#[tactic(auto, unfolding(scope::specs::Gain::term))]
fn column_term(sums: &[f64], start: usize, stop: usize, x: usize, s1: f64, s2: f64) -> f64
    requires { (start < length sums.now) × (stop < length sums.now) × (x < length sums.now) }
    ensures { result ≡ term sums.now start stop x s1 s2 }
{
    let s = s1 + s2;
    let t = (s1 * sums[stop] + s2 * sums[start]) - s * sums[x];
    t * t
}

impl<'a> ChangeInMean<'a> {
    // The terms of the columns, added in order from 0; the rows of start, stop and x begin at these places.
    // By column: three places of one slice are read at once, `zip` would be no plainer.
    #[tactic(auto, unfolding(scope::specs::Gain::terms))]
    fn column_terms(self, start: usize, stop: usize, x: usize, s1: f64, s2: f64) -> f64
        requires { (start + self.d ≤ length self.sums.now) × (stop + self.d ≤ length self.sums.now) × (x + self.d ≤ length self.sums.now) }
        ensures { result ≡ terms self.entry.sums.now start stop x s1 s2 self.entry.d }
    {
        let mut result = 0.0;
        for c in 0..self.d {
            result = result + column_term(self.sums, start + c, stop + c, x + c, s1, s2);
        }
        result
    }
}

impl<'a> Gain for ChangeInMean<'a> {
    ghost gains = { λ g start stop x. gain_of g.sums.now g.d start stop x };

    // at the splits of a segment whose sums are there
    ghost IsKnown = { λ g start stop x. (start ≤ x) × (x ≤ stop) × (stop ≤ 4096) × ((stop + 1) * g.d ≤ length g.sums.now) };

    // The gain of the split of [start, stop): 0 at its ends, else the terms divided by (s*s1)*s2.
    #[tactic(auto, using(crate::proofs::Cumsum::row_in, control::proofs::Sizes::small), unfolding(scope::specs::Gain::gain_of, scope::specs::Gain::inner_gain))]
    fn gain(&self, segment: Segment, split: Position) -> f64 {
        if split == segment.start || split == segment.stop {
            return 0.0;
        }
        let s1 = split.offset_in(segment.start).0 as f64;
        let s2 = segment.stop.offset_in(split).0 as f64;
        let s = s1 + s2;
        self.column_terms(
            segment.start.0 * self.d,
            segment.stop.0 * self.d,
            split.0 * self.d,
            s1,
            s2,
        ) / ((s * s1) * s2)
    }
}

// The refusal that applies to a call for a gain.
#[tactic(auto, unfolding(scope::specs::Calls::gain_refusal))]
pub fn gain_refusal(
    matrix: Matrix,
    segment: Segment,
    split: Position,
    room: usize,
) -> Result<(), Refusal>
    ensures { number_in result ≡ gain_refusal (record { matrix = matrix_of matrix.entry; start = segment.start.0; stop = segment.stop.0; split = split.0; room = room }) }
{
    if control::wrong_matrix(matrix, control::MOST_ROWS) {
        return Err(Refusal::Sizes);
    }
    if !control::all_finite(matrix.cells) {
        return Err(Refusal::NotFinite);
    }
    if room < control::sums_len(matrix.n, matrix.d) {
        return Err(Refusal::Room);
    }
    if control::wrong_segment(matrix.n, segment) || control::wrong_split(segment, split) {
        return Err(Refusal::Segment);
    }
    Ok(())
}
