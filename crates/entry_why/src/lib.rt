// Why a row is not on the sheet.
// Entry points: whatever is passed in, each ends with an answer or with a refusal, which has changed no lent memory. None has a `requires`.
// The lent slices stay apart: a struct of `&mut` slices would be built for one call and taken apart in it, and the contract names each.
#![tactic(auto)]

ghost use Rattle.std.specs.Prelude.{◌≡◌, ◌≤◌, length};
ghost use Rattle.scope.specs.Why.{text_of, why_refusal};
ghost use Rattle.control.specs.Refused.{number_in};
ghost use Rattle.control.specs.Settings.{matrix_of, settings_of};
ghost use Rattle.reasons.specs.Answers.{to_why};
ghost use Rattle.report.specs.Written.{Written};
ghost use Rattle.entry_why.specs.Left.{WhyLeft};

use change_in_mean::ChangeInMean;
use control::{Matrix, Refusal, Settings};
use reasons::Why;
use report::Page;
use rows::Position;
use stored::records::Records;
use verdict::Asked;

// What is told of the row, and how many bytes of text go with it.
#[derive(Clone, Copy, Debug)]
pub struct Explained {
    pub why: Why,
    pub written: usize,
}

// So many bytes hold the text of any origin: `draw ` and 20 digits, or `layer ` and a number up to 64.
pub const TEXT: usize = 25;

// What a call for why is refused for: no tree is kept, so there is room for the sums, the stored segments' records and the text alone.
#[tactic(auto, unfolding(scope::specs::Why::why_refusal))]
fn why_refusal(
    matrix: Matrix,
    settings: Settings,
    row: Position,
    sums: usize,
    records: usize,
    text: usize,
) -> Result<(), Refusal>
    ensures { number_in result ≡ why_refusal (record { matrix = matrix_of matrix.entry; settings = settings_of settings.entry; row = row.0; sums = sums; records = records; text = text }) }
{
    prepared::run_refusal(matrix, settings)?;
    if sums < control::sums_len(matrix.n, matrix.d) {
        return Err(Refusal::Room);
    }
    if records < draws::most_stored(settings.source) {
        return Err(Refusal::Room);
    }
    if text < TEXT {
        return Err(Refusal::Room);
    }
    if draws::any_past(settings.source.draws, matrix.n) {
        return Err(Refusal::Segment);
    }
    if matrix.n <= row.0 {
        return Err(Refusal::Segment);
    }
    Ok(())
}

// Stores the text that goes with what is told: the origin's, for a cut alone. Tells how many bytes.
fn put_text(found: Why, text: &mut [u8]) -> usize
    requires { length (text_of (to_why found)) ≤ length text.old }
    ensures { Written text.old 0 (text_of (to_why found)) text.new result }
{
    let Why::Cut(_, origin) = found else {
        return 0;
    };
    let mut page = Page { out: text, at: 0 };
    page.put_origin(origin);
    page.at
}

// Why the row is not on the sheet, or that it is, of which segment, and where the cut came from: from the readings and the settings alone. The text of a cut's
// origin is left in `text`, the records of the stored segments in `rows` and `gains`, as by `stored_segments`, and the prefix sums in `sums`.
pub fn why(
    matrix: Matrix,
    settings: Settings,
    row: Position,
    sums: &mut [f64],
    rows: &mut [usize],
    gains: &mut [f64],
    text: &mut [u8],
) -> Result<Explained, Refusal>
    ensures { WhyLeft (matrix_of matrix.entry) (settings_of settings.entry) row.0 result (record { sums = sums.old; rows = rows.old; gains = gains.old }) (record { sums = sums.new; rows = rows.new; gains = gains.new }) text.old text.new }
{
    let room = control::record_room(rows.len(), gains.len());
    why_refusal(matrix, settings, row, sums.len(), room, text.len())?;
    let count = segmentation::store_segments(
        matrix,
        settings.allowed,
        settings.source,
        sums,
        rows,
        gains,
    );
    let len = control::sums_len(matrix.n, matrix.d);
    let gain = ChangeInMean {
        sums: &sums[..len],
        d: matrix.d,
    };
    let records = Records { rows, gains, count };
    let why = reasons::explain(Asked { gain, settings }, matrix.n, records, row);
    let written = put_text(why, text);
    Ok(Explained { why, written })
}
