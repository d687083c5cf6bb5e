// Why a row is not on the sheet: what is told of it, and the walk from the whole run down to the segment that it is told of. Inside the library.
// proofs/ shows that it is what the definitions tell, and crates/demand that this is so of the data.
#![tactic(auto)]

ghost use Rattle.std.specs.Prelude.{◌≡◌, ◌<◌, ◌≤◌};
ghost use Rattle.scope.specs.Why.{is_near, first_barring, by_gain, reason_in};
ghost use Rattle.rows.specs.Segments.{to_segment};
ghost use Rattle.control.specs.Settings.{shortest_of};
ghost use Rattle.verdict.specs.Rules.{over, Sized};
ghost use Rattle.reasons.specs.Answers.{to_why, to_barring};
ghost use Rattle.reasons.specs.Walked.{Ready, Told};

use control::Shortest;
use optimizer::gain::Gain;
use optimizer::optimizer_result::Origin;
use rows::{Position, Segment};
use stored::records::Records;
use verdict::{Asked, Verdict};

// What is told of a row, each with the segment that it is told of: it is the cut of that reached segment, by a record of this origin; or, of the uncut one that
// holds it, the first that applies. A row is barred by the first listed pair that bars it, and a gain is the row's own in that segment.
#[derive(Clone, Copy, Debug)]
pub enum Why {
    Cut(Segment, Origin),
    TooNear(Segment),
    Barred(usize, usize, Segment),
    NoNumber(Segment),
    NotAbove(f64, Segment),
}

// Whether the row is too near an end to split the segment.
#[tactic(auto, unfolding(scope::specs::Why::is_near))]
fn is_near(shortest: Shortest, segment: Segment, row: Position) -> bool
    requires { (shortest.m ≤ 4096) × (segment.start.0 ≤ 4096) × (segment.stop.0 ≤ 4096) × (row.0 ≤ 4096) }
    ensures { result ≡ is_near (shortest_of shortest) (to_segment segment) row.0 }
{
    row.0 < segment.start.0 + shortest.m
        || segment.stop.0 + shortest.one_more() <= row.0 + shortest.m
}

// The first listed pair (a, b) that bars the row: a < x <= b.
#[tactic(auto, using(crate::proofs::Barred::pair_in_front, crate::proofs::Barred::short))]
fn first_barring(forbidden: &[usize], row: Position) -> Option<(usize, usize)>
    ensures { to_barring result ≡ first_barring forbidden.now row.0 }
{
    for pair in forbidden.chunks_exact(2) {
        if pair[0] < row.0 && row.0 <= pair[1] {
            return Some((pair[0], pair[1]));
        }
    }
    None
}

// What a gain in an uncut segment is told as.
fn by_gain(gain: f64, segment: Segment) -> Why
    ensures { to_why result ≡ by_gain gain (to_segment segment) }
{
    if gain.is_nan() {
        return Why::NoNumber(segment);
    }
    Why::NotAbove(gain, segment)
}

// Within the uncut segment that holds the row, the first reason that applies.
fn reason_in(asked: Asked, segment: Segment, row: Position) -> Why
    requires { Sized asked segment.stop.0 × (segment.start.0 ≤ row.0) × (row.0 < segment.stop.0) }
    ensures { to_why result ≡ reason_in (over asked.entry) row.0 (to_segment segment) }
{
    let allowed = asked.settings.allowed;
    if is_near(allowed.shortest, segment, row) {
        return Why::TooNear(segment);
    }
    match first_barring(allowed.forbidden, row) {
        Some((a, b)) => Why::Barred(a, b, segment),
        None => by_gain(asked.gain.gain(segment, row), segment),
    }
}

// What is told of a row of the run [0, n), behind whose stored segments' records each reached segment is judged: from the whole run down to the part that
// holds the row, until a segment is cut at the row or not cut at all. One search for each level.
pub fn explain(asked: Asked, n: usize, records: Records, row: Position) -> Why
    requires { Sized asked n × (row.0 < n) × Ready asked n records }
    ensures { Told asked.entry n records.entry row.0 result }
{
    let mut segment = Segment::run(n);
    while let Verdict::Cut(_, choice) = verdict::judge(asked, segment, records) {
        let split = choice.best_split;
        if row == split {
            return Why::Cut(segment, choice.origin);
        }
        if row < split {
            segment.stop = split;
        } else {
            segment.start = split;
        }
    }
    reason_in(asked, segment, row)
}
