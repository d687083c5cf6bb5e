// The sheet's text: how many cuts, a line for each, how many nodes. Inside the library.
// A run without stored segments chooses direct records alone, so a cut's record is the first one made that splits there (proofs/Lookup.antt).
#![tactic(auto)]

ghost use Rattle.std.specs.Prelude.{◌≡◌, ◌+◌, ◌*◌, ◌≤◌, length, option_map};
ghost use Rattle.optimizer.specs.Records.{to_record};
ghost use Rattle.stored.specs.Records.{records_of};
ghost use Rattle.report.specs.Fields.{line_room};
ghost use Rattle.report.specs.Written.{Put, RoomFor};
ghost use Rattle.sheet_text.specs.Lines.{first_at, line_of, lines_of, sheet_of};

use optimizer::optimizer_result::GainRecord;
use report::Page;
use rows::Position;
use stored::records::Records;

// The first of the records that splits at the row.
fn record_at(records: Records, row: Position) -> Option<GainRecord>
    ensures { option_map to_record result ≡ first_at row.0 (records_of records.entry) }
{
    // Records are no slice: each is five numbers and a gain in lent memory.
    for k in 0..records.count {
        let found = records.at(k);
        if found.best_split == row {
            return Some(found);
        }
    }
    None
}

// The line of the first record that splits at the row, or nothing.
fn put_line(page: &mut Page, records: Records, row: Position)
    requires { RoomFor line_room page.old }
    ensures written { Put page.old (line_of (first_at row.0 (records_of records.entry))) page.new }
    ensures most { page.new.at ≤ page.old.at + line_room }
{
    if let Some(cut) = record_at(records, row) {
        page.put_cut(cut);
    }
}

// A line for each of the rows that are cut.
fn put_lines(page: &mut Page, records: Records, cuts: &[usize])
    requires { RoomFor (line_room * length cuts.now) page.old }
    ensures written { Put page.old (lines_of (records_of records.entry) cuts.now) page.new }
    ensures most { page.new.at ≤ page.old.at + line_room * length cuts.now }
{
    for row in cuts {
        put_line(page, records, Position(*row));
    }
}

// The whole sheet, of the rows that are cut and the records that were made.
pub fn put_sheet(page: &mut Page, nodes: usize, records: Records, cuts: &[usize])
    requires { RoomFor (line_room * (length cuts.now + 2)) page.old }
    ensures written { Put page.old (sheet_of nodes (records_of records.entry) cuts.now) page.new }
    ensures most { page.new.at ≤ page.old.at + line_room * (length cuts.now + 2) }
{
    page.put_count(b"cuts", cuts.len() as u64);
    put_lines(page, records, cuts);
    page.put_count(b"nodes", nodes as u64);
}
