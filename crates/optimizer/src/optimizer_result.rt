// What a search finds: the gain record, by value, as it is handed on to the tree; and the answer to a caller. After optimizer/optimizer_result.rs.
ghost use Rattle.std.specs.Prelude.{◌≡◌};
ghost use Rattle.scope.specs.Refusals.{given};
ghost use Rattle.scope.specs.Origin.{kind_of, number_of, origin_of};
ghost use Rattle.scope.specs.Grid.{blank, better};
ghost use Rattle.scope.specs.Calls.{split_of};
ghost use Rattle.scope.specs.Layers.{with_origin};
ghost use Rattle.optimizer.specs.Records.{to_origin, to_record, tried, guessed, best_split_told};

use rows::{Position, Segment};

// Where a record comes from: the search of a segment that the tree grows by; a layer, by its number from 1; or a draw, by its place in the list of draws, from 0.
#[derive(Clone, Copy, Debug, PartialEq, Eq)]
pub enum Origin {
    Direct,
    Layer(usize),
    Draw(usize),
}

// The best split of [start, stop) and its gain, and where the record comes from. Start and stop of its own, as document 01 names the record's fields.
#[derive(Clone, Copy, Debug)]
pub struct GainRecord {
    pub start: Position,
    pub stop: Position,
    pub best_split: Position,
    pub max_gain: f64,
    pub origin: Origin,
}

// A search answers with a split and its gain, or with the number of a refusal. An enum of its own, as document 01 names its cases.
#[derive(Clone, Copy, Debug)]
pub enum BestSplit {
    Found(Position, f64),
    Refused(u32),
}

// What stands for an origin's kind in lent memory: the C interface takes and gives these numbers.
const DIRECT: usize = 0;

const LAYER: usize = 1;

const DRAW: usize = 2;

impl Origin {
    // The two whole numbers that stand for it in lent memory: its kind,
    pub fn kind(self) -> usize
        ensures { result ≡ kind_of (to_origin self) }
    {
        match self {
            Origin::Direct => DIRECT,
            Origin::Layer(_) => LAYER,
            Origin::Draw(_) => DRAW,
        }
    }

    // and its number.
    pub fn number(self) -> usize
        ensures { result ≡ number_of (to_origin self) }
    {
        match self {
            Origin::Direct => 0,
            Origin::Layer(k) | Origin::Draw(k) => k,
        }
    }

    // The origin that two numbers stand for.
    #[tactic(auto, unfolding(scope::specs::Origin::origin_of))]
    pub fn of(kind: usize, number: usize) -> Origin
        ensures { to_origin result ≡ origin_of kind number }
    {
        match kind {
            DIRECT => Origin::Direct,
            LAYER => Origin::Layer(number),
            _ => Origin::Draw(number),
        }
    }
}

impl GainRecord {
    // Nothing seen yet: split 0 and minus infinity.
    pub fn blank(segment: Segment) -> GainRecord
        ensures { to_record result ≡ blank segment.start.0 segment.stop.0 }
    {
        GainRecord::guessed(segment, Position(0))
    }

    // Nothing seen yet, from a guess: the guess and minus infinity.
    pub fn guessed(segment: Segment, guess: Position) -> GainRecord
        ensures { to_record result ≡ guessed segment.start.0 segment.stop.0 guess.0 }
    {
        GainRecord {
            start: segment.start,
            stop: segment.stop,
            best_split: guess,
            max_gain: f64::NEG_INFINITY,
            origin: Origin::Direct,
        }
    }

    // The split is taken only if its gain is strictly greater: so the first of equal gains wins, and NaN never does.
    #[tactic(auto, unfolding(scope::specs::Grid::better))]
    pub fn better(self, split: Position, gain: f64) -> GainRecord
        ensures record { to_record result ≡ better (to_record self) (tried (to_record self) split.0 gain) }
        ensures segment { (result.start ≡ self.start) × (result.stop ≡ self.stop) }
    {
        if self.max_gain < gain {
            return GainRecord {
                best_split: split,
                max_gain: gain,
                origin: Origin::Direct,
                ..self
            };
        }
        self
    }

    // The same, of another origin.
    pub fn with_origin(self, origin: Origin) -> GainRecord
        ensures { to_record result ≡ with_origin (to_origin origin) (to_record self) }
    {
        GainRecord { origin, ..self }
    }

    // The segment that was searched.
    pub fn segment(self) -> Segment
        ensures { (result.start ≡ self.start) × (result.stop ≡ self.stop) }
    {
        Segment {
            start: self.start,
            stop: self.stop,
        }
    }

    // The answer to a caller.
    pub fn best(self) -> BestSplit
        ensures { best_split_told result ≡ given (split_of (to_record self)) }
    {
        BestSplit::Found(self.best_split, self.max_gain)
    }
}
