// Why a row is not on the sheet, exported.
ghost use Rattle.changeforest_c.specs.Stored.{WhyStored};

use control::{Allowed, Matrix, Settings, Shortest, Source};
use rows::Position;

// What is told of the row: which reason into reason, 0 that it is a cut, 1 too near an end, 2 barred, 3 a gain that is no number, 4 a gain that does not exceed
// the threshold; the ends of the segment that it is told of into start and stop; for a cut the kind and the number of the chosen record's origin into kind and
// number, its text into text, and how many bytes that has into length; the first listed pair that bars it into a and b; the gain into gain. sums takes the prefix
// sums, rows and gains the stored segments' records.
#[unsafe(no_mangle)]
pub extern "C" fn changeforest_why(
    cells: &[f64],
    n: usize,
    d: usize,
    m: usize,
    closed: bool,
    threshold: f64,
    forbidden: &[usize],
    layers: &[f64],
    draws: &[usize],
    w: usize,
    row: usize,
    sums: &mut [f64],
    rows: &mut [usize],
    gains: &mut [f64],
    text: &mut [u8],
    reason: &mut u32,
    start: &mut usize,
    stop: &mut usize,
    kind: &mut usize,
    number: &mut usize,
    length: &mut usize,
    a: &mut usize,
    b: &mut usize,
    gain: &mut f64,
) -> u32
    ensures { WhyStored (record { cells = cells.now; n = n; d = d }) (record { shortest = record { m = m; closed = closed }; threshold = threshold; forbidden = forbidden.now; source = record { layers = layers.now; draws = draws.now; W = w } }) row result (record { sums = sums.old; rows = rows.old; gains = gains.old }) (record { sums = sums.new; rows = rows.new; gains = gains.new }) text.old text.new (record { reason = reason.old; start = start.old; stop = stop.old; kind = kind.old; number = number.old; length = length.old; a = a.old; b = b.old; gain = gain.old }) (record { reason = reason.new; start = start.new; stop = stop.new; kind = kind.new; number = number.new; length = length.new; a = a.new; b = b.new; gain = gain.new }) }
{
    let shortest = Shortest { m, closed };
    let settings = Settings {
        allowed: Allowed {
            shortest,
            forbidden,
        },
        threshold,
        source: Source { layers, draws, w },
    };
    let matrix = Matrix { cells, n, d };
    match entry_why::why(matrix, settings, Position(row), sums, rows, gains, text) {
        Ok(found) => {
            told::put_why(
                found.why,
                found.written,
                reason,
                start,
                stop,
                kind,
                number,
                length,
                a,
                b,
                gain,
            );
            0
        }
        Err(refusal) => refusal.number(),
    }
}
