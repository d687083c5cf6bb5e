// The pick from a curve and the guesses, exported.
ghost use Rattle.changeforest_c.specs.Stored.{PickStored, GuessesStored, list_given};

use control::{Allowed, Shortest};
use rows::{Position, Segment};

// The candidate of [start, stop) with the greatest value of the curve, and that value; the guess and minus infinity if none is greater.
#[unsafe(no_mangle)]
pub extern "C" fn changeforest_pick(
    curve: &[f64],
    n: usize,
    m: usize,
    closed: bool,
    forbidden: &[usize],
    start: usize,
    stop: usize,
    guess: usize,
    split: &mut usize,
    gain: &mut f64,
) -> u32
    ensures { PickStored (record { n = n; shortest = record { m = m; closed = closed }; forbidden = forbidden.now; start = start; stop = stop; guess = guess; curve = curve.now }) result split.old split.new gain.old gain.new }
{
    let shortest = Shortest { m, closed };
    let allowed = Allowed {
        shortest,
        forbidden,
    };
    let segment = Segment {
        start: Position(start),
        stop: Position(stop),
    };
    let answer = entry_two_step::pick(curve, n, allowed, segment, Position(guess));
    told::tell_split(answer, split, gain)
}

// One to three guesses for [start, stop), and how many. An empty forbidden list that is given is not the same as none: C has no Option, so `given` says which.
#[unsafe(no_mangle)]
pub extern "C" fn changeforest_guesses(
    n: usize,
    m: usize,
    closed: bool,
    given: bool,
    forbidden: &[usize],
    start: usize,
    stop: usize,
    first: &mut usize,
    second: &mut usize,
    third: &mut usize,
    count: &mut usize,
) -> u32
    ensures { GuessesStored (record { n = n; shortest = record { m = m; closed = closed }; forbidden = list_given given forbidden.now; start = start; stop = stop }) result first.old first.new second.old second.new third.old third.new count.old count.new }
{
    let segment = Segment {
        start: Position(start),
        stop: Position(stop),
    };
    let shortest = Shortest { m, closed };
    let listed = given.then_some(forbidden);
    match entry_two_step::guesses(n, shortest, listed, segment) {
        Ok(found) => {
            told::put_guesses(found, first, second, third, count);
            0
        }
        Err(refusal) => refusal.number(),
    }
}
