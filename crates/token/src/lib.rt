// One field of a line, byte by byte: as a word, as a number or a cell, as a threshold. Inside the library.
// A function follows its definition of specs/Walk.antt; proofs/ has what the walks come to.
#![tactic(auto)]

ghost use Rattle.std.specs.Prelude.{◌≡◌, ◌<◌};
ghost use Rattle.token.specs.Options.{option_of};
ghost use Rattle.token.specs.Walk.{word_more, value_more, digit_more, cell_more, hex_digit, place_more, hex_more, fresh as Walk·fresh, token_more, as_number, as_plain, as_bits};
ghost use Rattle.scope.specs.Text.{number};

// What the bytes so far are: nothing, a word of the program, the start of one, or neither.
#[derive(Clone, Copy, Debug, PartialEq, Eq)]
pub enum Word {
    Empty,
    C,
    Cf,
    Cfg,
    N,
    No,
    R,
    Ro,
    Row,
    Other,
}

impl Word {
    // One byte more.
    fn more(self, b: u8) -> Word
        ensures { result ≡ word_more self b }
    {
        match (self, b) {
            (Word::Empty, b'c') => Word::C,
            (Word::C, b'f') => Word::Cf,
            (Word::Cf, b'g') => Word::Cfg,
            (Word::Empty, b'n') => Word::N,
            (Word::N, b'o') => Word::No,
            (Word::Empty, b'r') => Word::R,
            (Word::R, b'o') => Word::Ro,
            (Word::Ro, b'w') => Word::Row,
            _ => Word::Other,
        }
    }
}

// A number's digits so far: none, those of a value, or no number.
#[derive(Clone, Copy, Debug, PartialEq, Eq)]
pub enum Digits {
    Empty,
    Value(usize),
    Wrong,
}

impl Digits {
    // The number that they are, where they are one.
    pub fn value(self) -> Option<usize>
        ensures { option_of result ≡ as_number self }
    {
        match self {
            Digits::Value(v) => Some(v),
            Digits::Empty | Digits::Wrong => None,
        }
    }

    // One byte more.
    fn more(self, b: u8) -> Digits
        ensures { result ≡ digit_more self b }
    {
        if !b.is_ascii_digit() {
            return Digits::Wrong;
        }
        let digit = (b - b'0') as usize;
        match self {
            Digits::Empty => Digits::Value(digit),
            Digits::Value(v) => value_more(v, digit),
            Digits::Wrong => Digits::Wrong,
        }
    }
}

// A digit after a value: none may follow a leading zero, or ten digits.
fn value_more(v: usize, digit: usize) -> Digits
    requires { digit < 10 }
    ensures { result ≡ value_more v digit }
{
    if v == 0 || 1_000_000_000 <= v {
        Digits::Wrong
    } else {
        Digits::Value(v * 10 + digit)
    }
}

// The number that a whole field is, where it is one.
pub fn number_of(field: &[u8]) -> Option<usize>
    ensures { option_of result ≡ number field.now }
{
    let mut digits = Digits::Empty;
    for &b in field {
        digits = digits.more(b);
    }
    digits.value()
}

// A cell so far: nothing, a number, or what follows a minus.
#[derive(Clone, Copy, Debug, PartialEq, Eq)]
pub enum Cell {
    Empty,
    Plain(Digits),
    Minus(Digits),
}

impl Cell {
    // The digits of a field that has no minus.
    pub fn plain(self) -> Digits
        ensures { result ≡ as_plain self }
    {
        match self {
            Cell::Empty => Digits::Empty,
            Cell::Plain(digits) => digits,
            Cell::Minus(_) => Digits::Wrong,
        }
    }

    // One byte more.
    fn more(self, b: u8) -> Cell
        ensures { result ≡ cell_more self b }
    {
        match self {
            Cell::Empty if b == b'-' => Cell::Minus(Digits::Empty),
            Cell::Empty => Cell::Plain(Digits::Empty.more(b)),
            Cell::Plain(digits) => Cell::Plain(digits.more(b)),
            Cell::Minus(digits) => Cell::Minus(digits.more(b)),
        }
    }
}

// A threshold's digits so far: how many, and the bits that they give.
#[derive(Clone, Copy, Debug, PartialEq, Eq)]
pub struct Places {
    pub count: u64,
    pub bits: u64,
}

// A hex digit's value.
fn hex_digit(b: u8) -> Option<u64>
    ensures { result ≡ hex_digit b }
{
    match b {
        b'0'..=b'9' => Some((b - b'0') as u64),
        b'a'..=b'f' => Some((b - b'a') as u64 + 10),
        _ => None,
    }
}

// A digit after others: sixteen are whole, and the bits of fewer leave room for one more.
fn place_more(places: Places, digit: u64) -> Option<Places>
    requires { digit < 16 }
    ensures { result ≡ place_more places digit }
{
    if 16 <= places.count || 0x1000_0000_0000_0000 <= places.bits {
        return None;
    }
    Some(Places {
        count: places.count + 1,
        bits: places.bits * 16 + digit,
    })
}

fn hex_more(hex: Option<Places>, b: u8) -> Option<Places>
    ensures { result ≡ hex_more hex b }
{
    place_more(hex?, hex_digit(b)?)
}

// A field so far, as each of the things that a field may be.
#[derive(Clone, Copy, Debug, PartialEq, Eq)]
pub struct Token {
    pub word: Word,
    pub cell: Cell,
    // none once the field can't be a threshold
    pub hex: Option<Places>,
}

impl Token {
    // Before the first byte.
    pub fn fresh() -> Token
        ensures { result ≡ Walk·fresh }
    {
        Token {
            word: Word::Empty,
            cell: Cell::Empty,
            hex: Some(Places { count: 0, bits: 0 }),
        }
    }

    // One byte more.
    pub fn more(self, b: u8) -> Token
        ensures { result ≡ token_more self b }
    {
        Token {
            word: self.word.more(b),
            cell: self.cell.more(b),
            hex: hex_more(self.hex, b),
        }
    }

    // The bits of a whole threshold.
    pub fn bits(self) -> Option<u64>
        ensures { option_of result ≡ as_bits self.hex }
    {
        self.hex
            .filter(|places| places.count == 16)
            .map(|places| places.bits)
    }
}
