// Standard input, read and fed to `deck`. Its first bytes are kept in a lent buffer, more of them than a deck that has a sheet can have, so that contracts can
// name them; what is longer is read in lots. Inside the library.
// The reader is any of std's, and the code one for all. Where a reader tells its bytes, as one over memory does, the reading is of all of them, each once and in
// order (specs/Known.antt). Standard input tells none, so of it the contracts say less (specs/Taken.antt).
#![tactic(auto)]

ghost use Rattle.std.specs.Prelude.{◌≤◌, length, IfSome};
ghost use Rattle.reading.specs.Taken.{Filled, Fetched, Rested, Taken};
ghost use Rattle.reading.specs.Known.{FilledOf, FetchedOf, RestedOf, TakenOf};

use deck::{Read, State};
use line::{BARRED, MOST_CELLS};
use std::io;

// How many bytes are kept. A deck with a sheet has less than 25,000: 64 pairs, and 2,048 cells of six bytes, each on a line of its own at most.
pub const KEPT: usize = 65536;

// So many bytes has a lot at most.
const LOT: usize = 65536;

// A proved loop has to end, and nothing says that the input does: there are as many turns as no run uses up, and so few that every line's number is a `u64`.
const TURNS: u64 = 0x8000_0000_0000;

// The input can't be read to its end.
#[derive(Clone, Copy, Debug, PartialEq, Eq)]
pub struct Unreadable;

impl From<io::Error> for Unreadable {
    fn from(_error: io::Error) -> Unreadable {
        Unreadable
    }
}

// Reads until the buffer is full or the input ends. Tells how many bytes of the input stand in it: all of them, if they don't fill it.
fn keep<R: io::Read>(input: &mut R, kept: &mut [u8]) -> Result<usize, Unreadable>
    ensures filled { Filled kept.new result }
    ensures known { FilledOf (R.remaining input.old) (R.remaining input.new) kept.new result }
{
    let mut n = 0;
    // no range counts these: a read delivers as many bytes as it likes
    while n < kept.len() {
        match input.read(&mut kept[n..])? {
            0 => return Ok(n),
            more => n += more,
        }
    }
    Ok(n)
}

// The state after one lot's bytes; none at the input's end.
fn read_lot<R: io::Read>(
    input: &mut R,
    state: State,
    cells: &mut [f64; MOST_CELLS],
    forbidden: &mut [usize; BARRED],
) -> Result<Option<State>, Unreadable>
    ensures fetched { Fetched state cells.old forbidden.old cells.new forbidden.new result }
    ensures known { FetchedOf (R.remaining input.old) (R.remaining input.new) state cells.old forbidden.old cells.new forbidden.new result }
{
    let mut lot = [0u8; LOT];
    match input.read(&mut lot)? {
        0 => Ok(None),
        n => Ok(Some(deck::feed(state, &lot[..n], cells, forbidden))),
    }
}

// Reads on to the end.
fn read_rest<R: io::Read>(
    input: &mut R,
    first: State,
    cells: &mut [f64; MOST_CELLS],
    forbidden: &mut [usize; BARRED],
) -> Result<Read, Unreadable>
    ensures rested { Rested first cells.old forbidden.old cells.new forbidden.new result }
    ensures known { IfSome (R.remaining input.old) (λ xs. RestedOf xs first cells.old forbidden.old cells.new forbidden.new result) }
{
    let mut state = first;
    for _turn in 0..TURNS {
        match read_lot(input, state, cells, forbidden)? {
            Some(next) => state = next,
            None => return Ok(deck::finish(state)),
        }
    }
    Err(Unreadable)
}

// The whole input's reading.
pub fn read_all<R: io::Read>(
    input: &mut R,
    kept: &mut [u8],
    cells: &mut [f64; MOST_CELLS],
    forbidden: &mut [usize; BARRED],
) -> Result<Read, Unreadable>
    requires { length kept.old ≤ 65536 }
    ensures taken { Taken kept.new cells.old forbidden.old cells.new forbidden.new result }
    ensures known { IfSome (R.remaining input.old) (λ xs. TakenOf xs cells.old forbidden.old cells.new forbidden.new result) }
{
    let n = keep(input, kept)?;
    let state = deck::feed(deck::start(), &kept[..n], cells, forbidden);
    if n < kept.len() {
        return Ok(deck::finish(state));
    }
    read_rest(input, state, cells, forbidden)
}
