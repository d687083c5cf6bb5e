// Why a call is refused.
ghost use Rattle.std.specs.Prelude.{◌≡◌};
ghost use Rattle.control.specs.Refused.{number_of};

// The lines of document 01's table of refusals, with their numbers.
#[derive(Clone, Copy, Debug, PartialEq, Eq)]
pub enum Refusal {
    // n or d outside its size, or cells that are not n*d
    Sizes = 1,
    // m outside its size, or a relative length that is none
    Length = 2,
    // a threshold that is NaN, or an alpha that is none
    Threshold = 3,
    NotFinite = 4,
    // a forbidden list or draws of odd length, or a pair with a > b
    Pairs = 5,
    // layers and draws: too many, no layer's value, or both given
    Source = 6,
    Room = 7,
    // a segment, split, draw or row outside the run
    Segment = 8,
    TooShort = 9,
    AllBarred = 10,
    Permutations = 11,
    // curves of wrong number or length, a guess that is no candidate
    Curves = 12,
    TooManyCells = 13,
    StillOpen = 14,
}

impl Refusal {
    // Its number, as hosts and the programs' text tell it.
    pub fn number(self) -> u32
        ensures { result ≡ number_of self }
    {
        self as u32
    }
}
