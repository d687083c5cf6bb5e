// What a segment chooses, and whether it is cut. After segmentation.rs.
ghost use Rattle.std.specs.Prelude.{◌≡◌, ◌<◌};
ghost use Rattle.std.specs.Float.Ieee.{lt};
ghost use Rattle.scope.specs.Grid.{better, best};
ghost use Rattle.scope.specs.Tree.{inside};
ghost use Rattle.optimizer.specs.Records.{to_record};
ghost use Rattle.stored.specs.Flat.{record_at, inside_at};
ghost use Rattle.stored.specs.Records.{records_of};

use crate::records::Records;
use optimizer::optimizer_result::GainRecord;

// Whether the record at a place lies inside the segment of another. Of most records no more is read than their ends.
fn lies_inside(records: Records, k: usize, direct: GainRecord) -> bool
    requires { k < records.count }
    ensures { result ≡ inside_at direct.start.0 direct.stop.0 records.entry.rows.now k }
{
    let start = records.rows[5 * k];
    let stop = records.rows[5 * k + 1];
    direct.start.0 <= start && stop <= direct.stop.0
}

// The record at a place is taken only if its gain is strictly greater: so the direct record and the earlier ones win ties.
#[tactic(auto, unfolding(scope::specs::Grid::better))]
fn stronger(choice: GainRecord, records: Records, k: usize) -> GainRecord
    requires { k < records.count }
    ensures { to_record result ≡ better (to_record choice) (record_at records.entry.rows.now records.entry.gains.now k) }
{
    if choice.max_gain < records.gains[k] {
        return records.at(k);
    }
    choice
}

// A segment's choice: its direct record, unless a stored record that lies inside it has strictly greater gain; then the earliest with the greatest.
pub fn choose(direct: GainRecord, records: Records) -> GainRecord
    ensures { to_record result ≡ best (to_record direct) (inside direct.start.0 direct.stop.0 (records_of records.entry)) }
{
    let mut choice = direct;
    // By place, since of most records no more is read than their ends.
    for k in 0..records.count {
        if lies_inside(records, k, direct) {
            choice = stronger(choice, records, k);
        }
    }
    choice
}

// It is cut if the choice's gain exceeds the threshold.
pub fn model_selection(choice: GainRecord, threshold: f64) -> bool
    ensures { result ≡ lt threshold choice.max_gain }
{
    threshold < choice.max_gain
}
