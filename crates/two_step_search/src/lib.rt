// The pick of a split from a lent gain curve, and the guesses that curves are made from. Inside the library. After optimizer/two_step_search.rs.
#![tactic(auto)]

ghost use Rattle.std.specs.Prelude.{◌≡◌, [], ◌++◌, ◌+◌, ◌-◌, ◌*◌, ◌<◌, ◌≤◌, length, get_or};
ghost use Rattle.std.proofs.Math.Option.{some, none};
ghost use Rattle.scope.specs.Candidates.{candidates};
ghost use Rattle.scope.specs.Curves.{picked, is_member, guesses};
ghost use Rattle.scope.specs.Lists.{at, keep};
ghost use Rattle.scope.specs.Refusals.{first_of};
ghost use Rattle.scope.specs.Calls.{guesses_tests, pick_tests};
ghost use Rattle.control.specs.Refused.{number_in};
ghost use Rattle.control.specs.Settings.{shortest_of};
ghost use Rattle.optimizer.specs.Records.{to_record};
ghost use Rattle.optimizer.specs.Searchable.{Searchable};
ghost use Rattle.two_step_search.specs.Guessed.{rows_of};

use control::{Allowed, Refusal, Shortest};
use optimizer::candidates;
use optimizer::candidates::Candidates;
use optimizer::gain::{Gain, greatest};
use optimizer::optimizer_result::GainRecord;
use rows::{Offset, Position, Segment};

// Whether a row is a candidate.
#[tactic(auto, using(crate::proofs::Guessing::member_below, crate::proofs::Guessing::member_above, crate::proofs::Guessing::member_inside))]
pub fn is_candidate(allowed: Allowed, segment: Segment, row: Position) -> bool
    requires { Searchable segment allowed.shortest }
    ensures { result ≡ is_member row.0 (candidates (shortest_of allowed.entry.shortest) allowed.entry.forbidden.now segment.start.0 segment.stop.0) }
{
    let first = candidates::range_row(allowed.shortest, segment.start, 0);
    let size = candidates::range_size(allowed.shortest, segment);
    first <= row && row.offset_in(first).0 < size && !candidates::is_barred(allowed.forbidden, row)
}

// A lent gain curve: an entry for each row of a segment.
#[derive(Clone, Copy)]
struct Curve<'a>(&'a [f64]);

impl<'a> Gain for Curve<'a> {
    ghost gains = { λ g start stop x. at g.0.now (x - start) };

    ghost IsKnown = { λ g start stop x. (start ≤ x) × (x - start < length g.0.now) };

    // The curve's value at the row's offset.
    fn gain(&self, segment: Segment, split: Position) -> f64 {
        self.0[split.offset_in(segment.start).0]
    }
}

// The candidate with the greatest value of the curve, the first if several are equal; the guess and minus infinity if there is none.
#[tactic(auto, unfolding(scope::specs::Curves::picked))]
pub fn single_find_best_split(
    curve: &[f64],
    allowed: Allowed,
    segment: Segment,
    guess: Position,
) -> GainRecord
    requires start_le_stop { (1 ≤ allowed.shortest.m) × Searchable segment allowed.shortest }
    requires curve_len { length curve.now ≡ segment.stop.0 - segment.start.0 }
    ensures { to_record result ≡ picked (shortest_of allowed.entry.shortest) allowed.entry.forbidden.now segment.start.0 segment.stop.0 guess.0 curve.now }
{
    let from = GainRecord::guessed(segment, guess);
    greatest(&Curve(curve), allowed, segment, from)
}

// Up to three guesses, by value.
#[derive(Clone, Copy, Debug, PartialEq, Eq)]
pub enum Guesses {
    NoGuess,
    One(Position),
    Two(Position, Position),
    Three(Position, Position, Position),
}

impl Guesses {
    // How many there are.
    pub fn count(self) -> usize
        ensures { result ≡ length (rows_of self) }
    {
        match self {
            Guesses::NoGuess => 0,
            Guesses::One(_) => 1,
            Guesses::Two(..) => 2,
            Guesses::Three(..) => 3,
        }
    }

    // One guess more, if it is kept.
    fn and_if(self, keeps: bool, row: Position) -> Guesses
        requires { length (rows_of self) < 3 }
        ensures { rows_of result ≡ rows_of self ++ keep keeps row.0 [] }
    {
        if !keeps {
            return self;
        }
        match self {
            Guesses::NoGuess => Guesses::One(row),
            Guesses::One(first) => Guesses::Two(first, row),
            Guesses::Two(first, second) | Guesses::Three(first, second, _) => {
                Guesses::Three(first, second, row)
            }
        }
    }
}

// The candidate number i, from 0; row 0 if there are no more than i.
fn candidate_number(allowed: Allowed, segment: Segment, i: usize) -> Position
    requires { Searchable segment allowed.shortest }
    ensures { result.0 ≡ get_or (candidates (shortest_of allowed.entry.shortest) allowed.entry.forbidden.now segment.start.0 segment.stop.0) i 0 }
{
    Candidates::of(allowed, segment)
        .nth(i)
        .unwrap_or(Position(0))
}

// How many candidates there are.
#[tactic(auto, using(crate::proofs::Guessing::few_rows))]
fn count_candidates(allowed: Allowed, segment: Segment) -> usize
    requires { Searchable segment allowed.shortest }
    ensures counted { result ≡ length (candidates (shortest_of allowed.entry.shortest) allowed.entry.forbidden.now segment.start.0 segment.stop.0) }
    ensures few { result ≤ 4097 }
{
    Candidates::of(allowed, segment).count()
}

// The guesses with a forbidden list, even an empty one: candidates number c/4, c/2 and 3c/4 of c, each only if above the last kept.
#[tactic(auto, unfolding(scope::specs::Curves::guesses))]
pub fn guesses_listed(allowed: Allowed, segment: Segment) -> Guesses
    requires start_le_stop { Searchable segment allowed.shortest }
    requires nonzero { 0 < length (candidates (shortest_of allowed.shortest) allowed.forbidden.now segment.start.0 segment.stop.0) }
    ensures { rows_of result ≡ guesses (shortest_of allowed.entry.shortest) (some allowed.entry.forbidden.now) segment.start.0 segment.stop.0 }
{
    let c = count_candidates(allowed, segment);
    let first = candidate_number(allowed, segment, c / 4);
    let second = candidate_number(allowed, segment, c / 2);
    let third = candidate_number(allowed, segment, 3 * c / 4);
    if first < second {
        if second < third {
            return Guesses::Three(first, second, third);
        }
        return Guesses::Two(first, second);
    }
    if first < third {
        return Guesses::Two(first, third);
    }
    Guesses::One(first)
}

// The guesses without a forbidden list: (3a+b)/4, (a+b)/2, (a+3b)/4 of start a and stop b, which stand a quarter, a half and three quarters
// of the segment past its start, keeping candidates.
#[tactic(auto, unfolding(scope::specs::Curves::guesses))]
pub fn guesses_between(shortest: Shortest, segment: Segment) -> Guesses
    requires { Searchable segment shortest }
    ensures { rows_of result ≡ guesses (shortest_of shortest) none segment.start.0 segment.stop.0 }
{
    let allowed = Allowed {
        shortest,
        forbidden: &[],
    };
    let long = segment.length();
    let first = Offset(long / 4).position_from(segment.start);
    let second = Offset(long / 2).position_from(segment.start);
    let third = Offset(3 * long / 4).position_from(segment.start);
    let one = Guesses::NoGuess.and_if(is_candidate(allowed, segment, first), first);
    let two = one.and_if(is_candidate(allowed, segment, second), second);
    two.and_if(is_candidate(allowed, segment, third), third)
}

// The refusal that applies to a call for guesses; the forbidden list is empty if none is given.
pub fn guesses_refusal(n: usize, allowed: Allowed, segment: Segment) -> Result<(), Refusal>
    ensures { number_in result ≡ first_of (guesses_tests (record { n = n; shortest = shortest_of allowed.entry.shortest; forbidden = some allowed.entry.forbidden.now; start = segment.start.0; stop = segment.stop.0 })) }
{
    control::rows_refusal(n, allowed)?;
    candidates::segment_refusal(n, allowed, segment)
}

// The refusal that applies to a call for a pick.
pub fn pick_refusal(
    n: usize,
    allowed: Allowed,
    segment: Segment,
    guess: Position,
    curve: &[f64],
) -> Result<(), Refusal>
    ensures { number_in result ≡ first_of (pick_tests (record { n = n; shortest = shortest_of allowed.entry.shortest; forbidden = allowed.entry.forbidden.now; start = segment.start.0; stop = segment.stop.0; guess = guess.0; curve = curve.now })) }
{
    guesses_refusal(n, allowed, segment)?;
    if !is_candidate(allowed, segment, guess) || curve.len() != segment.length() {
        return Err(Refusal::Curves);
    }
    Ok(())
}
