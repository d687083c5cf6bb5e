// The records of the stored segments, exported.
ghost use Rattle.changeforest_c.specs.Stored.{SegmentsStored};

use control::{Allowed, Matrix, Shortest, Source};

// The records of the stored segments, of layers or of draws, and how many: start, stop, best split and the origin's kind and number of each into rows, its gain
// into gains; sums takes the prefix sums. Of draws at most w are stored.
#[unsafe(no_mangle)]
pub extern "C" fn changeforest_stored_segments(
    cells: &[f64],
    n: usize,
    d: usize,
    m: usize,
    closed: bool,
    forbidden: &[usize],
    layers: &[f64],
    draws: &[usize],
    w: usize,
    sums: &mut [f64],
    rows: &mut [usize],
    gains: &mut [f64],
    count: &mut usize,
) -> u32
    ensures { SegmentsStored (record { cells = cells.now; n = n; d = d }) (record { m = m; closed = closed }) forbidden.now (record { layers = layers.now; draws = draws.now; W = w }) result (record { sums = sums.old; rows = rows.old; gains = gains.old }) (record { sums = sums.new; rows = rows.new; gains = gains.new }) count.old count.new }
{
    let matrix = Matrix { cells, n, d };
    let shortest = Shortest { m, closed };
    let allowed = Allowed {
        shortest,
        forbidden,
    };
    let source = Source { layers, draws, w };
    let answer = entry_segments::stored_segments(matrix, allowed, source, sums, rows, gains);
    told::tell_value(answer, count)
}
