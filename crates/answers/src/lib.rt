// The program's answer to a reading: the text of its output, into lent memory. Inside the library.
// specs/Answered.antt says what is written, and proofs/Said.antt that it is the program's text for whichever input was read. The room is in the types.
// `answer`, `put_answer` and `put_sheet` are much like why_answers' `answer`, `put_answer` and `put_why`. One function for both would take what a deck's answer is as a closure over the lent memory, whose
// contract, at each of the two, would be longer than these lines.
// The arrays stay apart: a struct of them would be built once and taken apart in `grow`, and the contracts name each all the same.
#![tactic(auto)]

ghost use Rattle.std.specs.Prelude.{◌≡◌, ◌+◌, ◌*◌, ◌≤◌, length, take};
ghost use Rattle.scope.specs.Program.{sheet_text};
ghost use Rattle.scope.specs.Refusals.{told_unless};
ghost use Rattle.scope.specs.Tree.{tree_of};
ghost use Rattle.demand.specs.Printed.{Answers};
ghost use Rattle.control.specs.Refused.{number_in};
ghost use Rattle.deck.specs.Meaning.{read_text, Said};
ghost use Rattle.limits.specs.Held.{run_held};
ghost use Rattle.limits.specs.Limits.{given_refusal};
ghost use Rattle.report.specs.Written.{Written, Put, RoomFor};
ghost use Rattle.answers.specs.Answered.{given_text, given_number, Grew};

use control::Refusal;
use deck::{BadLine, Read};
use entry_tree::Grown;
use limits::SUMS;
use line::{BARRED, Given, MOST_CELLS};
use report::Page;
use stored::records::Records;

// B for 256 rows: the most nodes, so the most records, of five whole numbers each.
pub const RECORDS: usize = 509;

pub const ROWS: usize = 5 * RECORDS;

// (B-1)/2.
pub const CUTS: usize = 254;

// So many lines of 111 bytes: `cuts`, `nodes`, and one for each cut.
pub const TEXT: usize = 111 * (CUTS + 2);

// The answer to a reading, whose cells and forbidden pairs are those that `deck::feed` stored. Tells how many bytes were written.
pub fn answer(
    read: Read,
    cells: &[f64; MOST_CELLS],
    forbidden: &[usize; BARRED],
    sums: &mut [f64; SUMS],
    rows: &mut [usize; ROWS],
    gains: &mut [f64; RECORDS],
    cuts: &mut [usize; CUTS],
    out: &mut [u8; TEXT],
) -> usize
    ensures written { Written out.old 0 (read_text given_text read cells.now forbidden.now) out.new result }
    ensures said { Said Answers read cells.now forbidden.now (take result out.new) }
    ensures least { 1 ≤ result }
    ensures most { result ≤ length out.new }
{
    let mut page = Page { out, at: 0 };
    put_answer(&mut page, read, cells, forbidden, sums, rows, gains, cuts);
    page.at
}

// The same on a page.
#[tactic(auto, unfolding(crate::specs::Answered::given_text, scope::specs::Text::bytes))]
fn put_answer(
    page: &mut Page,
    read: Read,
    cells: &[f64; MOST_CELLS],
    forbidden: &[usize; BARRED],
    sums: &mut [f64; SUMS],
    rows: &mut [usize; ROWS],
    gains: &mut [f64; RECORDS],
    cuts: &mut [usize; CUTS],
)
    requires { RoomFor TEXT page.old }
    ensures written { Put page.old (read_text given_text read cells.now forbidden.now) page.new }
    ensures most { page.new.at ≤ page.old.at + TEXT }
{
    match read {
        Err(BadLine(number)) => page.put_count(b"bad", number),
        Ok(deck) => {
            if let Err(refusal) = put_sheet(page, deck, cells, forbidden, sums, rows, gains, cuts) {
                page.put_count(b"refused", refusal.number() as u64);
            }
        }
    }
}

// A deck's sheet. Where the deck or its tree is refused, nothing is written.
fn put_sheet(
    page: &mut Page,
    deck: Given,
    cells: &[f64; MOST_CELLS],
    forbidden: &[usize; BARRED],
    sums: &mut [f64; SUMS],
    rows: &mut [usize; ROWS],
    gains: &mut [f64; RECORDS],
    cuts: &mut [usize; CUTS],
) -> Result<(), Refusal>
    requires { RoomFor TEXT page.old }
    ensures refused { number_in result ≡ given_number deck cells.now forbidden.now }
    ensures written { Put page.old (told_unless (given_number deck cells.now forbidden.now) (sheet_text (tree_of (run_held deck cells.now forbidden.now)))) page.new }
    ensures most { page.new.at ≤ page.old.at + TEXT }
{
    limits::refusal(deck, forbidden)?;
    let grown = grow(deck, cells, forbidden, sums, rows, gains, cuts)?;
    let counts = grown.counts;
    let records = Records {
        rows,
        gains,
        count: counts.records,
    };
    sheet_text::put_sheet(page, counts.nodes, records, &cuts[..counts.cuts]);
    Ok(())
}

// The tree of a deck that is not refused.
fn grow(
    deck: Given,
    cells: &[f64; MOST_CELLS],
    forbidden: &[usize; BARRED],
    sums: &mut [f64; SUMS],
    rows: &mut [usize; ROWS],
    gains: &mut [f64; RECORDS],
    cuts: &mut [usize; CUTS],
) -> Result<Grown, Refusal>
    requires { given_refusal deck forbidden.now ≡ 0 }
    ensures { Grew deck cells.now forbidden.now rows.old gains.old cuts.old rows.new gains.new cuts.new result }
{
    entry_tree::split_points(
        limits::matrix(deck, cells),
        limits::settings(deck, forbidden),
        sums,
        rows,
        gains,
        cuts,
    )
}
