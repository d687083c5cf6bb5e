// The line that tells why a row is not on the sheet. Inside the library. A line has at most 112 bytes.
#![tactic(auto)]

ghost use Rattle.std.specs.Prelude.{◌∷◌, [], ◌++◌, ◌+◌, ◌≤◌, length};
ghost use Rattle.scope.specs.Text.{bytes, decimal, line};
ghost use Rattle.scope.specs.Origin.{origin_text};
ghost use Rattle.scope.specs.WhyText.{ends, why_line};
ghost use Rattle.rows.specs.Segments.{to_segment};
ghost use Rattle.optimizer.specs.Records.{to_origin};
ghost use Rattle.reasons.specs.Answers.{to_why};
ghost use Rattle.report.specs.Fields.{ended_by};
ghost use Rattle.report.specs.Written.{Put, RoomFor};

use optimizer::optimizer_result::Origin;
use reasons::Why;
use report::Page;
use rows::{Position, Segment};

// A word, the row, the segment's ends, and the byte after them.
fn put_row(page: &mut Page, word: &[u8], row: Position, segment: Segment, end: u8)
    requires { RoomFor (length word.now + 64) page.old }
    ensures written { Put page.old (ended_by end (word.now ∷ decimal row.0 ∷ ends (to_segment segment))) page.new }
    ensures most { page.new.at ≤ page.old.at + length word.now + 64 }
{
    page.put_word(word);
    page.put_number(row.0 as u64, b'\t');
    page.put_ends(segment, end);
}

// The cut's segment, and where its record comes from.
fn put_cut(page: &mut Page, row: Position, segment: Segment, origin: Origin)
    requires { RoomFor 112 page.old }
    ensures written { Put page.old (line (bytes "cut" ∷ decimal row.0 ∷ ends (to_segment segment) ++ (origin_text (to_origin origin) ∷ []))) page.new }
    ensures most { page.new.at ≤ page.old.at + 112 }
{
    put_row(page, b"cut", row, segment, b'\t');
    page.put_last_origin(origin);
}

// The pair that bars the row, before the segment's ends.
fn put_barred(page: &mut Page, row: Position, a: usize, b: usize, segment: Segment)
    requires { RoomFor 112 page.old }
    ensures written { Put page.old (line (bytes "barred" ∷ decimal row.0 ∷ decimal a ∷ decimal b ∷ ends (to_segment segment))) page.new }
    ensures most { page.new.at ≤ page.old.at + 112 }
{
    page.put_word(b"barred");
    page.put_number(row.0 as u64, b'\t');
    page.put_number(a as u64, b'\t');
    page.put_number(b as u64, b'\t');
    page.put_ends(segment, b'\n');
}

// What is told of the row.
#[tactic(auto, unfolding(scope::specs::Text::bytes, scope::specs::Text::line, report::specs::Fields::ended_by))]
pub fn put_why(page: &mut Page, row: Position, why: Why)
    requires { RoomFor 112 page.old }
    ensures written { Put page.old (why_line row.0 (to_why why)) page.new }
    ensures most { page.new.at ≤ page.old.at + 112 }
{
    match why {
        Why::Cut(segment, origin) => put_cut(page, row, segment, origin),
        Why::TooNear(segment) => put_row(page, b"near", row, segment, b'\n'),
        Why::Barred(a, b, segment) => put_barred(page, row, a, b, segment),
        Why::NoNumber(segment) => put_row(page, b"nan", row, segment, b'\n'),
        Why::NotAbove(gain, segment) => page.put_gain(b"below\t", row, gain, segment, b'\n'),
    }
}
