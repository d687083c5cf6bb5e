// What calls are asked with: the readings, the shortest part, the rows that may be split, what stored segments come from. Lists are lent.
ghost use Rattle.std.specs.Prelude.{◌≡◌, ◌+◌, ◌*◌, ◌≤◌, leb};
ghost use Rattle.scope.specs.Asked.{one_more, end_of};
ghost use Rattle.control.specs.Settings.{shortest_of};

// The readings: n rows of d columns, row after row.
#[derive(Clone, Copy)]
pub struct Matrix<'a> {
    pub cells: &'a [f64],
    pub n: usize,
    pub d: usize,
}

// The shortest part that a split may leave: m rows. The Rust wants one more in the last part; with the closed end m rows do there too.
#[derive(Clone, Copy, Debug, PartialEq, Eq)]
pub struct Shortest {
    pub m: usize,
    pub closed: bool,
}

impl Shortest {
    // One row more at the end of a range, where it is closed: all that the setting does.
    pub fn one_more(self) -> usize
        ensures { (result ≡ one_more (shortest_of self)) × (result ≤ 1) }
    {
        if self.closed { 1 } else { 0 }
    }

    // The fewest rows that can be split: 2m+1, or 2m where the end is closed.
    fn fewest_rows(self) -> usize
        requires { self.m ≤ 4096 }
        ensures { result + one_more (shortest_of self) ≡ 2 * self.m + 1 }
    {
        2 * self.m + 1 - self.one_more()
    }

    // Whether so many rows are too few to be split.
    pub fn too_long_for(self, rows: usize) -> bool
        requires { self.m ≤ 4096 }
        ensures { result ≡ leb (end_of (shortest_of self) rows) (2 * self.m) }
    {
        rows < self.fewest_rows()
    }

    // How many of n rows are shared out among parts of m: all but one, or all where the end is closed.
    pub fn shared_rows(self, n: usize) -> usize
        requires { (1 ≤ n) × (n ≤ 4096) }
        ensures { result + 1 ≡ end_of (shortest_of self) n }
    {
        n + self.one_more() - 1
    }
}

// Which rows may be split: those that leave parts long enough and that no forbidden pair bars. The pairs stand flat, a then b.
#[derive(Clone, Copy)]
pub struct Allowed<'a> {
    pub shortest: Shortest,
    pub forbidden: &'a [usize],
}

// What a run's stored segments come from: the layers' values; or draws, flat, start then stop, of which at most w leave records.
#[derive(Clone, Copy)]
pub struct Source<'a> {
    pub layers: &'a [f64],
    pub draws: &'a [usize],
    pub w: usize,
}

// What a run is asked with.
#[derive(Clone, Copy)]
pub struct Settings<'a> {
    pub allowed: Allowed<'a>,
    pub threshold: f64,
    pub source: Source<'a>,
}
