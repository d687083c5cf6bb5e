// The rows that a forbidden list bars, marked once for all the rows of a run, so that a look at a row is one load however long the list is.
ghost use Rattle.std.specs.Prelude.{◌≡◌, ◌≤◌, ◌<◌, length};
ghost use Rattle.scope.specs.Candidates.{is_barred};
ghost use Rattle.optimizer.specs.Marks.{Unmarked, PairMarked, MarkedIfAny};

use rows::Position;

// How many marks there are: for the rows of the longest run, and for its end.
pub const ROWS: usize = 4097;

// Clears every mark.
fn clear(marks: &mut [bool])
    ensures { Unmarked marks.old marks.new }
{
    marks.fill(false);
}

// Marks the rows that the pair (a, b) bars: a < x <= b.
fn mark_pair(a: usize, b: usize, marks: &mut [bool])
    requires { 4096 < length marks.old }
    ensures { PairMarked a b marks.old marks.new }
{
    let last = b.min(ROWS - 1);
    if a < last {
        marks[a + 1..=last].fill(true);
    }
}

// Marks the rows that the pairs of the list bar, in whatever order they stand, and however they overlap.
pub fn mark(forbidden: &[usize], marks: &mut [bool])
    requires { 2 ≤ length forbidden.now → 4096 < length marks.old }
    ensures { MarkedIfAny forbidden.now marks.new }
{
    if forbidden.len() < 2 {
        return;
    }
    clear(marks);
    for pair in forbidden.chunks_exact(2) {
        mark_pair(pair[0], pair[1], marks);
    }
}

// Whether some pair of the list bars the row: what its mark says.
#[tactic(auto, using(crate::proofs::Barred::short))]
pub fn is_barred(forbidden: &[usize], marks: &[bool], row: Position) -> bool
    requires marked_if_any { MarkedIfAny forbidden.now marks.now }
    requires row_bound { row.0 ≤ 4096 }
    ensures { result ≡ is_barred forbidden.now row.0 }
{
    2 <= forbidden.len() && marks[row.0]
}
