// Candidates, gain and search, exported.
ghost use Rattle.std.specs.Prelude.{length};
ghost use Rattle.changeforest_c.specs.Stored.{CandidatesStored, GainStored, SearchStored};

use control::{Allowed, Matrix, Shortest};
use rows::{Position, Segment};

// The candidates of [start, stop), written into rows, and how many.
#[unsafe(no_mangle)]
pub extern "C" fn changeforest_split_candidates(
    n: usize,
    m: usize,
    closed: bool,
    forbidden: &[usize],
    start: usize,
    stop: usize,
    rows: &mut [usize],
    count: &mut usize,
) -> u32
    ensures { CandidatesStored (record { n = n; shortest = record { m = m; closed = closed }; forbidden = forbidden.now; start = start; stop = stop; room = length rows.old }) result rows.old rows.new count.old count.new }
{
    let shortest = Shortest { m, closed };
    let allowed = Allowed {
        shortest,
        forbidden,
    };
    let segment = Segment {
        start: Position(start),
        stop: Position(stop),
    };
    told::tell_value(
        entry_mean::split_candidates(n, allowed, segment, rows),
        count,
    )
}

// The gain of the split of [start, stop); sums takes the prefix sums.
#[unsafe(no_mangle)]
pub extern "C" fn changeforest_gain(
    cells: &[f64],
    n: usize,
    d: usize,
    start: usize,
    stop: usize,
    split: usize,
    sums: &mut [f64],
    gain: &mut f64,
) -> u32
    ensures { GainStored (record { matrix = record { cells = cells.now; n = n; d = d }; start = start; stop = stop; split = split; room = length sums.old }) result sums.old sums.new gain.old gain.new }
{
    let matrix = Matrix { cells, n, d };
    let segment = Segment {
        start: Position(start),
        stop: Position(stop),
    };
    let answer = entry_mean::gain(matrix, segment, Position(split), sums);
    told::tell_value(answer, gain)
}

// The best split of [start, stop) and its gain; sums takes the prefix sums.
#[unsafe(no_mangle)]
pub extern "C" fn changeforest_find_best_split(
    cells: &[f64],
    n: usize,
    d: usize,
    m: usize,
    closed: bool,
    forbidden: &[usize],
    start: usize,
    stop: usize,
    sums: &mut [f64],
    split: &mut usize,
    gain: &mut f64,
) -> u32
    ensures { SearchStored (record { matrix = record { cells = cells.now; n = n; d = d }; shortest = record { m = m; closed = closed }; forbidden = forbidden.now; start = start; stop = stop; room = length sums.old }) result sums.old sums.new split.old split.new gain.old gain.new }
{
    let matrix = Matrix { cells, n, d };
    let shortest = Shortest { m, closed };
    let allowed = Allowed {
        shortest,
        forbidden,
    };
    let segment = Segment {
        start: Position(start),
        stop: Position(stop),
    };
    told::tell_split(
        entry_mean::find_best_split(matrix, allowed, segment, sums),
        split,
        gain,
    )
}
