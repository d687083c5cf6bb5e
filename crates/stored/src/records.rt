// Gain records in lent memory: five whole numbers (start, stop, best split, and kind and number of the origin) and one gain for each, record after record.
ghost use Rattle.std.specs.Prelude.{◌≡◌, [], ◌∷◌, ◌+◌, ◌*◌, ◌<◌, ◌≤◌, length};
ghost use Rattle.std.proofs.lemmas.List.Edits.{sets};
ghost use Rattle.optimizer.specs.Records.{to_record};
ghost use Rattle.stored.specs.Flat.{record_at, flat_rows, gains_of};

use optimizer::optimizer_result::{GainRecord, Origin};
use rows::Position;

// The first `count` records of lent memory. C hosts lend the whole numbers and the gains apart.
#[derive(Clone, Copy)]
pub struct Records<'a> {
    pub rows: &'a [usize],
    pub gains: &'a [f64],
    pub count: usize,
    ghost in_room: { (5 * count ≤ length rows.now) × (count ≤ length gains.now) },
}

impl Records<'_> {
    // The record at a place.
    pub fn at(self, k: usize) -> GainRecord
        requires { k < self.count }
        ensures { to_record result ≡ record_at self.entry.rows.now self.entry.gains.now k }
    {
        GainRecord {
            start: Position(self.rows[5 * k]),
            stop: Position(self.rows[5 * k + 1]),
            best_split: Position(self.rows[5 * k + 2]),
            max_gain: self.gains[k],
            origin: Origin::of(self.rows[5 * k + 3], self.rows[5 * k + 4]),
        }
    }
}

// Stores a record at a place. C hosts lend the whole numbers and the gains apart.
pub fn put_record(rows: &mut [usize], gains: &mut [f64], at: usize, found: GainRecord)
    requires { (5 * at + 5 ≤ length rows.old) × (at < length gains.old) }
    ensures rows { rows.new ≡ sets rows.old (5 * at) (flat_rows (to_record found ∷ [])) }
    ensures gains { gains.new ≡ sets gains.old at (gains_of (to_record found ∷ [])) }
{
    rows[5 * at] = found.start.0;
    rows[5 * at + 1] = found.stop.0;
    rows[5 * at + 2] = found.best_split.0;
    rows[5 * at + 3] = found.origin.kind();
    rows[5 * at + 4] = found.origin.number();
    gains[at] = found.max_gain;
}
