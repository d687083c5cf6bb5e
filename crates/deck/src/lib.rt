// The text program's input, in whatever lots it arrives: what its lines are, and the deck that they make.
// Inside the library. A function follows its definition of specs/Walk.antt; proofs/ shows what the walk says of the whole input.
#![tactic(auto)]

ghost use Rattle.std.specs.Prelude.{◌≡◌};
ghost use Rattle.deck.specs.Meaning.{Right};
ghost use Rattle.deck.specs.Walk.{tabbed as Walk·tabbed, start as Walk·start, ready as Walk·ready, after_line, judged as Walk·judged, line_end, byte_more, open_step, run, fed, at_end, read_of};

use line::{Ended, Event, Given, Place};
use token::Token;

// A line has at most so many bytes, its LF included.
const MOST_BYTES: usize = 1024;

// Which lines have been: none, `cfg` and any `no`, or a `row` too.
#[derive(Clone, Copy, Debug, PartialEq, Eq)]
pub enum Phase {
    Begun,
    Barring,
    Feeding,
}

// The number of the first malformed line.
#[derive(Clone, Copy, Debug, PartialEq, Eq)]
pub struct BadLine(pub u64);

// In a line: its number, how many bytes it has so far, up to the most, and the field so far.
#[derive(Clone, Copy, Debug, PartialEq, Eq)]
pub struct Open {
    pub phase: Phase,
    pub number: u64,
    pub at: usize,
    pub place: Place,
    pub given: Given,
    pub token: Token,
}

// The state of the input: in a line, or past the first malformed one.
pub type State = Result<Open, BadLine>;

// The reading of a whole input: what its deck has given, or its first malformed line.
pub type Read = Result<Given, BadLine>;

// After a byte.
#[derive(Clone, Copy, Debug, PartialEq)]
pub struct Moved {
    pub state: State,
    pub event: Event,
}

// The phase that a whole line leads to, if it may stand there. Its fields ended at the place.
fn after_line(phase: Phase, place: Place) -> Option<Phase>
    ensures { result ≡ after_line phase place }
{
    match (phase, place) {
        (Phase::Begun, Place::Cfg) => Some(Phase::Barring),
        (Phase::Barring, Place::No) => Some(Phase::Barring),
        (Phase::Barring | Phase::Feeding, Place::Cells(_)) => Some(Phase::Feeding),
        _ => None,
    }
}

impl Open {
    // Before the first byte of a line.
    fn ready(phase: Phase, number: u64, given: Given) -> Open
        ensures { result ≡ Walk·ready phase number given }
    {
        Open {
            phase,
            number,
            at: 0,
            place: Place::Word,
            given,
            token: Token::fresh(),
        }
    }

    // The line has ended at the place; at counts the bytes before its LF.
    fn judged(self, place: Place, given: Given) -> State
        ensures { result ≡ Walk·judged self place given }
    {
        match after_line(self.phase, place) {
            Some(phase) if self.at < MOST_BYTES => {
                Ok(Open::ready(phase, self.number.saturating_add(1), given))
            }
            _ => Err(BadLine(self.number)),
        }
    }

    fn line_end(self) -> Moved
        ensures { result ≡ line_end self }
    {
        let ended = line::field_end(self.place, self.given, self.token);
        Moved {
            state: self.judged(ended.place, ended.given),
            event: ended.event,
        }
    }

    fn tabbed(self) -> Moved
        ensures { result ≡ Walk·tabbed self }
    {
        let Ended {
            place,
            given,
            event,
        } = line::field_end(self.place, self.given, self.token);
        Moved {
            state: Ok(Open {
                at: line::up_to(MOST_BYTES, self.at),
                place,
                given,
                token: Token::fresh(),
                ..self
            }),
            event,
        }
    }

    fn byte_more(self, b: u8) -> Moved
        ensures { result ≡ byte_more self b }
    {
        Moved {
            state: Ok(Open {
                at: line::up_to(MOST_BYTES, self.at),
                token: self.token.more(b),
                ..self
            }),
            event: Event::Nothing,
        }
    }

    fn step(self, b: u8) -> Moved
        ensures { result ≡ open_step self b }
    {
        match b {
            b'\n' => self.line_end(),
            b'\t' => self.tabbed(),
            _ => self.byte_more(b),
        }
    }

    // After the last byte. What follows the last LF is no line, and there must be a `cfg`.
    fn finish(self) -> Read
        ensures { result ≡ at_end self }
    {
        if self.at == 0 && self.phase != Phase::Begun {
            Ok(self.given)
        } else {
            Err(BadLine(self.number))
        }
    }
}

// Before the first byte.
pub fn start() -> State
    ensures { result ≡ Walk·start }
{
    Ok(Open::ready(Phase::Begun, 1, Given::nothing()))
}

// A lot of bytes, of any size, with what it gives to the lent slices. Past a malformed line it gives nothing.
// Two slices of two types, which the contracts name one by one.
pub fn feed(state: State, lot: &[u8], cells: &mut [f64], forbidden: &mut [usize]) -> State
    ensures state { result ≡ (fed (run state cells.old forbidden.old) lot.now).state }
    ensures cells { cells.new ≡ (fed (run state cells.old forbidden.old) lot.now).cells }
    ensures forbidden { forbidden.new ≡ (fed (run state cells.old forbidden.old) lot.now).forbidden }
{
    let mut open = state?;
    for &b in lot {
        let moved = open.step(b);
        line::store(moved.event, cells, forbidden);
        open = moved.state?;
    }
    Ok(open)
}

// After the last byte.
pub fn finish(state: State) -> Read
    ensures answer { result ≡ read_of state }
    ensures said { Right state result }
{
    state.and_then(|open| open.finish())
}
