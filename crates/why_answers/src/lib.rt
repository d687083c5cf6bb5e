// The answer of the program that tells why, to a reading: the text of its output, into lent memory. Inside the library.
// specs/Answered.antt says what is written, and proofs/Said.antt that it is the program's text for whichever input was read. The room is in the types.
// `answer`, `put_answer` and `put_why` are much like the crate answers' `answer`, `put_answer` and `put_sheet`, which says why they are not one.
// The arrays stay apart: a struct of them would be built once and taken apart in `explain`, and the contracts name each all the same.
#![tactic(auto)]

ghost use Rattle.std.specs.Prelude.{◌≡◌, ◌+◌, ◌≤◌, length, take};
ghost use Rattle.scope.specs.Refusals.{told_unless};
ghost use Rattle.scope.specs.Why.{why_of};
ghost use Rattle.scope.specs.WhyText.{why_line};
ghost use Rattle.demand.specs.Printed.{AnswersWhy};
ghost use Rattle.control.specs.Refused.{number_in};
ghost use Rattle.deck.specs.Meaning.{read_text, Said};
ghost use Rattle.limits.specs.Held.{run_held};
ghost use Rattle.limits.specs.Limits.{given_refusal};
ghost use Rattle.report.specs.Written.{Written, Put, RoomFor};
ghost use Rattle.why_answers.specs.Answered.{Tells, why_text, given_number};

use control::Refusal;
use deck::{BadLine, Read};
use entry_why::Explained;
use limits::SUMS;
use line::{BARRED, Given, MOST_CELLS};
use report::Page;
use rows::Position;

// One line: the longest names a pair.
pub const TEXT: usize = 112;

// The answer to a reading, of which the row is asked, and whose cells and forbidden pairs are those that `deck::feed` stored. Tells how many bytes were written.
pub fn answer(
    read: Read,
    row: Position,
    cells: &[f64; MOST_CELLS],
    forbidden: &[usize; BARRED],
    sums: &mut [f64; SUMS],
    out: &mut [u8; TEXT],
) -> usize
    ensures written { Written out.old 0 (read_text (why_text row.0) read cells.now forbidden.now) out.new result }
    ensures said { Said (AnswersWhy row.0) read cells.now forbidden.now (take result out.new) }
    ensures least { 1 ≤ result }
    ensures most { result ≤ length out.new }
{
    let mut page = Page { out, at: 0 };
    put_answer(&mut page, read, row, cells, forbidden, sums);
    page.at
}

// The same on a page.
#[tactic(auto, unfolding(crate::specs::Answered::why_text, scope::specs::Text::bytes))]
fn put_answer(
    page: &mut Page,
    read: Read,
    row: Position,
    cells: &[f64; MOST_CELLS],
    forbidden: &[usize; BARRED],
    sums: &mut [f64; SUMS],
)
    requires { RoomFor TEXT page.old }
    ensures written { Put page.old (read_text (why_text row.0) read cells.now forbidden.now) page.new }
    ensures most { page.new.at ≤ page.old.at + TEXT }
{
    match read {
        Err(BadLine(number)) => page.put_count(b"bad", number),
        Ok(deck) => {
            if let Err(refusal) = put_why(page, deck, row, cells, forbidden, sums) {
                page.put_count(b"refused", refusal.number() as u64);
            }
        }
    }
}

// What is told of a row of a deck. Where the deck or the row is refused, nothing is written.
fn put_why(
    page: &mut Page,
    deck: Given,
    row: Position,
    cells: &[f64; MOST_CELLS],
    forbidden: &[usize; BARRED],
    sums: &mut [f64; SUMS],
) -> Result<(), Refusal>
    requires { RoomFor TEXT page.old }
    ensures refused { number_in result ≡ given_number row.0 deck cells.now forbidden.now }
    ensures written { Put page.old (told_unless (given_number row.0 deck cells.now forbidden.now) (why_line row.0 (why_of (run_held deck cells.now forbidden.now) row.0))) page.new }
    ensures most { page.new.at ≤ page.old.at + TEXT }
{
    limits::refusal(deck, forbidden)?;
    let explained = explain(deck, row, cells, forbidden, sums)?;
    why_text::put_why(page, row, explained.why);
    Ok(())
}

// What is told of a row of a deck that is not refused. There are no stored segments, so no room is lent for their records; of the text the line has its own.
fn explain(
    deck: Given,
    row: Position,
    cells: &[f64; MOST_CELLS],
    forbidden: &[usize; BARRED],
    sums: &mut [f64; SUMS],
) -> Result<Explained, Refusal>
    requires { given_refusal deck forbidden.now ≡ 0 }
    ensures { Tells row.0 deck cells.now forbidden.now result }
{
    let mut text = [0u8; entry_why::TEXT];
    entry_why::why(
        limits::matrix(deck, cells),
        limits::settings(deck, forbidden),
        row,
        sums,
        &mut [],
        &mut [],
        &mut text,
    )
}
