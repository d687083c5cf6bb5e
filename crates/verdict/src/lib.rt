// What becomes of a segment: it is searched, and its choice is judged. Inside the library. After binary_segmentation.rs and model_selection.rs.
// The tree grows by it, and by it a row's segment is looked for. Assumes nothing.
#![tactic(auto)]

ghost use Rattle.std.specs.Prelude.{◌≤◌};
ghost use Rattle.stored.specs.Records.{records_of};
ghost use Rattle.verdict.specs.Rules.{over, Sized, Rules};

use change_in_mean::ChangeInMean;
use control::Settings;
use optimizer::optimizer_result::GainRecord;
use rows::Segment;
use stored::choice;
use stored::records::Records;

// What every segment is asked with: the gain of its splits, and the run's settings.
#[derive(Clone, Copy)]
pub struct Asked<'a> {
    pub gain: ChangeInMean<'a>,
    pub settings: Settings<'a>,
}

// A segment once it is judged: it has no candidate, and so no record; or its direct record, and its choice, which does not cut it or does.
#[derive(Clone, Copy, Debug)]
pub enum Verdict {
    WithoutChoice,
    Uncut(GainRecord, GainRecord),
    Cut(GainRecord, GainRecord),
}

// Searches the segment, and judges its choice among its direct record and the stored ones.
pub fn judge(asked: Asked, segment: Segment, records: Records) -> Verdict
    requires { (segment.start.0 ≤ segment.stop.0) × Sized asked segment.stop.0 }
    ensures { Rules (over asked.entry) (records_of records.entry) segment.start.0 segment.stop.0 result }
{
    let Ok(direct) = grid_search::search_segment(asked.gain, asked.settings.allowed, segment) else {
        return Verdict::WithoutChoice;
    };
    let choice = choice::choose(direct, records);
    if choice::model_selection(choice, asked.settings.threshold) {
        return Verdict::Cut(direct, choice);
    }
    Verdict::Uncut(direct, choice)
}
