// A row's position in the run and its offset in a segment, two counts that are never handed for one another.
// They are converted only through the segment's start. After document 01, "separate counts". Laws on lists that loops share: proofs/Stored.antt, proofs/Pairs.antt.
#![tactic(auto)]

ghost use Rattle.std.specs.Prelude.{◌≡◌, ◌+◌, ◌-◌, ◌<◌, ◌≤◌, ◌^◌};

// A row's position in the run.
#[repr(C)]
#[derive(Clone, Copy, Debug, PartialEq, Eq, PartialOrd, Ord)]
pub struct Position(pub usize);

// A row's offset in a segment.
#[derive(Clone, Copy, Debug, PartialEq, Eq, PartialOrd, Ord)]
pub struct Offset(pub usize);

// A segment of the run: the rows from start to the one before stop.
#[derive(Clone, Copy, Debug, PartialEq, Eq)]
pub struct Segment {
    pub start: Position,
    pub stop: Position,
}

impl Position {
    // Where this row stands in the segment that begins at `start`.
    pub fn offset_in(self, start: Position) -> Offset
        requires { start.0 ≤ self.0 }
        ensures { result.0 ≡ self.0 - start.0 }
    {
        Offset(self.0 - start.0)
    }
}

impl Offset {
    // Where this row of the segment that begins at `start` stands in the run.
    pub fn position_from(self, start: Position) -> Position
        requires { start.0 + self.0 < 2 ^ 64 }
        ensures { result.0 ≡ start.0 + self.0 }
    {
        Position(start.0 + self.0)
    }
}

impl Segment {
    // The whole run of n rows.
    pub fn run(n: usize) -> Segment
        ensures { (result.start.0 ≡ 0) × (result.stop.0 ≡ n) }
    {
        Segment {
            start: Position(0),
            stop: Position(n),
        }
    }

    // How many rows it has, 0 if it stops before it starts.
    pub fn length(self) -> usize
        ensures { result ≡ self.stop.0 - self.start.0 }
    {
        self.stop.0.saturating_sub(self.start.0)
    }
}
