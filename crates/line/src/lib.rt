// A line of the input, field by field: which field comes next, what the fields so far have given, and what is stored of them.
// Inside the library. A function follows its definition of specs/Walk.antt; proofs/ shows that a line comes to what the definitions read in it.
#![tactic(auto)]

ghost use Rattle.std.specs.Prelude.{◌≡◌, ◌<◌, slice_set, unwrap_or};
ghost use Rattle.token.specs.Options.{option_of};
ghost use Rattle.token.specs.Walk.{as_number, as_cell};
ghost use Rattle.line.specs.Walk.{up_to, nothing, onward as Walk·onward, malformed as Walk·malformed, place_of, number_at, number_end, bits_end, cell_at, cell_end, signed, ended, reads, stored_cell, stored_pair, stored_cells, stored_forbidden};

use std::num::nearest_usize_to_f64;
use token::{Cell, Digits, Token, Word};

// So many cells and pairs are kept, and one more is counted.
pub const MOST_CELLS: usize = 2048;

const CELLS_COUNTED: usize = MOST_CELLS + 1;

pub const MOST_PAIRS: usize = 64;

const PAIRS_COUNTED: usize = MOST_PAIRS + 1;

// The pairs that are kept, flat.
pub const BARRED: usize = 2 * MOST_PAIRS;

// So many cells has a row at most.
const MOST_IN_ROW: usize = 64;

// A number of a `cfg` or a `no` line. The second of a pair comes after a.
#[derive(Clone, Copy, Debug, PartialEq, Eq)]
pub enum Number {
    N,
    D,
    M,
    A,
    B(usize),
}

// What comes next in a line.
#[derive(Clone, Copy, Debug, PartialEq, Eq)]
pub enum Place {
    Word,
    Number(Number),
    Threshold,
    // the first cell
    Row,
    // a cell after so many, or the end
    Cells(usize),
    // the end of a `cfg` or a `no` line
    Cfg,
    No,
    // nothing that helps
    Malformed,
}

// What the lines so far have given. The pairs are counted up to 65 and the cells up to 2,049; wide says whether a cell is outside -32768 to 32767.
#[derive(Clone, Copy, Debug, PartialEq, Eq)]
pub struct Given {
    pub n: usize,
    pub d: usize,
    pub m: usize,
    pub threshold: u64,
    pub pairs: usize,
    pub cells: usize,
    pub wide: bool,
}

impl Given {
    // Before the first line.
    pub fn nothing() -> Given
        ensures { result ≡ nothing }
    {
        Given {
            n: 0,
            d: 0,
            m: 0,
            threshold: 0,
            pairs: 0,
            cells: 0,
            wide: false,
        }
    }
}

// What a field gives to the lent slices: a cell, or a pair a and b, after so many others.
#[derive(Clone, Copy, Debug, PartialEq)]
pub enum Event {
    Nothing,
    Cell(usize, f64),
    Pair(usize, usize, usize),
}

// After a field.
#[derive(Clone, Copy, Debug, PartialEq)]
pub struct Ended {
    pub place: Place,
    pub given: Given,
    pub event: Event,
}

// One more, up to a top. A count above the top stays as it is.
pub fn up_to(top: usize, k: usize) -> usize
    ensures { result ≡ up_to top k }
{
    if k < top { k + 1 } else { k }
}

fn onward(place: Place, given: Given) -> Ended
    ensures { result ≡ Walk·onward place given }
{
    Ended {
        place,
        given,
        event: Event::Nothing,
    }
}

fn place_of(word: Word) -> Place
    ensures { result ≡ place_of word }
{
    match word {
        Word::Cfg => Place::Number(Number::N),
        Word::No => Place::Number(Number::A),
        Word::Row => Place::Row,
        _ => Place::Malformed,
    }
}

fn number_at(number: Number, given: Given, v: usize) -> Ended
    ensures { result ≡ number_at number given v }
{
    match number {
        Number::N => onward(Place::Number(Number::D), Given { n: v, ..given }),
        Number::D => onward(Place::Number(Number::M), Given { d: v, ..given }),
        Number::M => onward(Place::Threshold, Given { m: v, ..given }),
        Number::A => onward(Place::Number(Number::B(v)), given),
        Number::B(a) => Ended {
            place: Place::No,
            given: Given {
                pairs: up_to(PAIRS_COUNTED, given.pairs),
                ..given
            },
            event: Event::Pair(given.pairs, a, v),
        },
    }
}

// A cell, of a value that is wide or not, after k others of its line.
fn cell_at(k: usize, given: Given, wide: bool, value: f64) -> Ended
    requires { k < 64 }
    ensures { result ≡ cell_at k given wide value }
{
    Ended {
        place: Place::Cells(k + 1),
        given: Given {
            cells: up_to(CELLS_COUNTED, given.cells),
            wide: given.wide | wide,
            ..given
        },
        event: Event::Cell(given.cells, value),
    }
}

// The same of a cell's digits, behind a minus or not, where they are a number. A minus is only on one that isn't 0.
fn signed_end(k: usize, given: Given, minus: bool, digits: Digits) -> Option<Ended>
    requires { k < 64 }
    ensures { unwrap_or result (Walk·malformed given) ≡ cell_end k given (signed minus (as_number digits)) }
{
    match digits.value()? {
        v if !minus => Some(cell_at(k, given, 32767 < v, nearest_usize_to_f64(v))),
        v if v > 0 => Some(cell_at(k, given, 32768 < v, -nearest_usize_to_f64(v))),
        _ => None,
    }
}

fn cell_end(k: usize, given: Given, cell: Cell) -> Option<Ended>
    requires { k < 64 }
    ensures { unwrap_or result (Walk·malformed given) ≡ cell_end k given (as_cell cell) }
{
    match cell {
        Cell::Empty => None,
        Cell::Plain(digits) => signed_end(k, given, false, digits),
        Cell::Minus(digits) => signed_end(k, given, true, digits),
    }
}

// What the field that a line awaits comes to, if it helps.
fn field_read(place: Place, given: Given, token: Token) -> Option<Ended>
    ensures { unwrap_or result (Walk·malformed given) ≡ ended place given (reads token) }
{
    match place {
        Place::Word => Some(onward(place_of(token.word), given)),
        Place::Number(number) => Some(number_at(number, given, token.cell.plain().value()?)),
        Place::Threshold => {
            let threshold = token.bits()?;
            Some(onward(Place::Cfg, Given { threshold, ..given }))
        }
        Place::Row => cell_end(0, given, token.cell),
        Place::Cells(k) if k < MOST_IN_ROW => cell_end(k, given, token.cell),
        Place::Cells(_) | Place::Cfg | Place::No | Place::Malformed => None,
    }
}

// The field that a line awaits has ended, and token is what it was.
pub fn field_end(place: Place, given: Given, token: Token) -> Ended
    ensures { result ≡ ended place given (reads token) }
{
    field_read(place, given, token).unwrap_or_else(|| onward(Place::Malformed, given))
}

// Stores at a place; what has no room is dropped.
fn store_at<T: Copy>(i: usize, v: T, held: &mut [T])
    ensures { held.new ≡ slice_set held.old i v }
{
    if i < held.len() {
        held[i] = v;
    }
}

// Cell number k, of the 2,048 that are kept.
fn store_cell(k: usize, value: f64, cells: &mut [f64])
    ensures { cells.new ≡ stored_cell k value cells.old }
{
    if k < MOST_CELLS {
        store_at(k, value, cells);
    }
}

// Pair number k, of the 64 that are kept.
fn store_pair(k: usize, a: usize, b: usize, forbidden: &mut [usize])
    ensures { forbidden.new ≡ stored_pair k a b forbidden.old }
{
    if k < MOST_PAIRS {
        store_at(2 * k, a, forbidden);
        store_at(2 * k + 1, b, forbidden);
    }
}

pub fn store(event: Event, cells: &mut [f64], forbidden: &mut [usize])
    ensures cells_after { cells.new ≡ stored_cells event cells.old }
    ensures forbidden_after { forbidden.new ≡ stored_forbidden event forbidden.old }
{
    match event {
        Event::Nothing => {}
        Event::Cell(k, value) => store_cell(k, value, cells),
        Event::Pair(k, a, b) => store_pair(k, a, b, forbidden),
    }
}
