// What a split of a segment gains, and the search for the split that gains most. After gain/mod.rs and optimizer/grid_search.rs.
ghost use Rattle.std.specs.Prelude.{◌≡◌, ℕ, Float};
ghost use Rattle.scope.specs.Candidates.{candidates};
ghost use Rattle.scope.specs.Grid.{best, trials};
ghost use Rattle.control.specs.Settings.{shortest_of};
ghost use Rattle.optimizer.specs.Remaining.{Each};
ghost use Rattle.optimizer.specs.Records.{to_record};
ghost use Rattle.optimizer.specs.Searchable.{Searchable};

use crate::candidates::Candidates;
use crate::optimizer_result::GainRecord;
use control::Allowed;
use rows::{Position, Segment};

// A gain of splits.
pub trait Gain {
    // the gain of the split x of [start, stop)
    ghost gains: { Self → ℕ → ℕ → ℕ → Float };

    // that it is known
    ghost IsKnown: { Self → ℕ → ℕ → ℕ → Type 0 };

    // The gain of the split of a segment.
    fn gain(&self, segment: Segment, split: Position) -> f64
        requires { IsKnown self.now segment.start.0 segment.stop.0 split.0 }
        ensures { result ≡ gains self.now segment.start.0 segment.stop.0 split.0 };
}

// The record of the greatest gain among the candidates of a segment, the first if several are equal; the one that it starts from if none is greater.
#[tactic(auto, using(crate::proofs::Tried::tried_first), unfolding(scope::specs::Grid::trials, scope::specs::Grid::best))]
pub fn greatest<G: Gain>(
    gain: &G,
    allowed: Allowed,
    segment: Segment,
    from: GainRecord,
) -> GainRecord
    requires start_le_stop { Searchable segment allowed.shortest }
    requires known { Each (G.IsKnown gain.now segment.start.0 segment.stop.0) (candidates (shortest_of allowed.shortest) allowed.forbidden.now segment.start.0 segment.stop.0) }
    requires of_segment { (from.start ≡ segment.start) × (from.stop ≡ segment.stop) }
    ensures { to_record result ≡ best (to_record from) (trials (G.gains gain.now) (shortest_of allowed.entry.shortest) allowed.entry.forbidden.now segment.start.0 segment.stop.0) }
{
    let mut record = from;
    for split in Candidates::of(allowed, segment) {
        record = record.better(split, gain.gain(segment, split));
    }
    record
}
