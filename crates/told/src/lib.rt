// How an answer reaches a host: as the number that C takes, 0 or a refusal's, and through lent places. Inside the library.
#![tactic(auto)]

ghost use Rattle.std.specs.Prelude.{◌≡◌, ◌≤◌, length, get_or, set};
ghost use Rattle.std.proofs.Math.ListN as ListN;
ghost use Rattle.scope.specs.Why.{text_of};
ghost use Rattle.control.specs.Refused.{number_in, told};
ghost use Rattle.optimizer.specs.Records.{best_split_told};
ghost use Rattle.two_step_search.specs.Guessed.{rows_of};
ghost use Rattle.reasons.specs.Answers.{to_why};
ghost use Rattle.entry_tree.specs.Answers.{to_counts};
ghost use Rattle.told.specs.Told.{number_of, value_or, told_or, counted_room, GrownTold, reason_number, segment_of, kind_or, origin_number_or, text_length_or, first_or, second_or, not_above_or};

use control::Refusal;
use entry_tree::Grown;
use optimizer::optimizer_result::BestSplit;
use reasons::Why;
use rows::Segment;
use two_step_search::Guesses;

// Tells an answer that has no value: 0, or the refusal's number.
pub fn tell_done(answer: Result<(), Refusal>) -> u32
    ensures { result ≡ number_in answer }
{
    match answer {
        Ok(()) => 0,
        Err(refusal) => refusal.number(),
    }
}

// Tells an answer: 0, and its value is stored, or the refusal's number.
pub fn tell_value<T: Copy>(answer: Result<T, Refusal>, place: &mut T) -> u32
    ensures number { result ≡ number_of (told (λ x. x) answer) }
    ensures place { place.new ≡ value_or (told (λ x. x) answer) place.old }
{
    match answer {
        Ok(value) => {
            *place = value;
            0
        }
        Err(refusal) => refusal.number(),
    }
}

// The same of a split and its gain.
pub fn tell_split(answer: BestSplit, split: &mut usize, gain: &mut f64) -> u32
    ensures number { result ≡ number_of (best_split_told answer) }
    ensures split { split.new ≡ told_or (λ found before. found.split) (best_split_told answer) split.old }
    ensures gain { gain.new ≡ told_or (λ found before. found.gain) (best_split_told answer) gain.old }
{
    match answer {
        BestSplit::Found(row, best) => {
            *split = row.0;
            *gain = best;
            0
        }
        BestSplit::Refused(no) => no,
    }
}

// How many of the nodes that a host lends are lent on: none where it lends less than four counts, so that a tree that nothing lower refuses is
// refused by 7.
#[tactic(auto, unfolding(crate::specs::Told::counted_room))]
pub fn counted_room(nodes: usize, counts: usize) -> usize
    ensures { (result ≡ counted_room nodes counts) × (result ≤ nodes) }
{
    if counts < 4 {
        return 0;
    }
    nodes
}

// Stores a count at a place, where there is room for it. `line` stores its cells and pairs so too, and no crate below both is of such stores.
fn put(counts: &mut [usize], at: usize, count: usize)
    ensures { counts.new ≡ set counts.old at count }
{
    if at < counts.len() {
        counts[at] = count;
    }
}

// Tells what was grown: 0 and the counts, or the number.
pub fn tell(grown: Result<Grown, Refusal>, counts: &mut [usize]) -> u32
    ensures { GrownTold (told to_counts grown) result counts.old counts.new }
{
    match grown {
        Ok(found) => {
            put(counts, 0, found.counts.nodes);
            put(counts, 1, found.counts.records);
            put(counts, 2, found.counts.cuts);
            put(counts, 3, found.stored);
            0
        }
        Err(refusal) => refusal.number(),
    }
}

// Stores the rows that are guessed, and how many; the places of those that are not stay. They are no struct, since the C interface lends each by itself.
pub fn put_guesses(
    found: Guesses,
    first: &mut usize,
    second: &mut usize,
    third: &mut usize,
    count: &mut usize,
)
    ensures first { first.new ≡ get_or (rows_of found) 0 first.old }
    ensures second { second.new ≡ get_or (rows_of found) 1 second.old }
    ensures third { third.new ≡ get_or (rows_of found) 2 third.old }
    ensures count { count.new ≡ length (rows_of found) }
{
    match found {
        Guesses::NoGuess => *count = 0,
        Guesses::One(a) => {
            *first = a.0;
            *count = 1;
        }
        Guesses::Two(a, b) => {
            *first = a.0;
            *second = b.0;
            *count = 2;
        }
        Guesses::Three(a, b, c) => {
            *first = a.0;
            *second = b.0;
            *third = c.0;
            *count = 3;
        }
    }
}

// What a host is told for each reason: the C interface tells it by its number.
const CUT: u32 = 0;

const NEAR: u32 = 1;

const BARRED: u32 = 2;

const NAN: u32 = 3;

const BELOW: u32 = 4;

// Stores the segment's ends.
fn put_ends(segment: Segment, start: &mut usize, stop: &mut usize)
    ensures start { start.new ≡ segment.start.0 }
    ensures stop { stop.new ≡ segment.stop.0 }
{
    *start = segment.start.0;
    *stop = segment.stop.0;
}

// Stores what is told of a row: which reason, and the ends of the segment that it is told of; for a cut the origin's kind and number, and the length of its
// text, of which so many bytes are written; a and b where a pair bars it, the gain where that is told. The other places stay.
// They are no struct, since the C interface lends each by itself.
pub fn put_why(
    found: Why,
    written: usize,
    reason: &mut u32,
    start: &mut usize,
    stop: &mut usize,
    kind: &mut usize,
    number: &mut usize,
    length: &mut usize,
    a: &mut usize,
    b: &mut usize,
    gain: &mut f64,
)
    requires { written ≡ ListN.length (text_of (to_why found)) }
    ensures reason { reason.new ≡ reason_number (to_why found) }
    ensures start { start.new ≡ (segment_of (to_why found)).start }
    ensures stop { stop.new ≡ (segment_of (to_why found)).stop }
    ensures kind { kind.new ≡ kind_or (to_why found) kind.old }
    ensures number { number.new ≡ origin_number_or (to_why found) number.old }
    ensures length { length.new ≡ text_length_or (to_why found) length.old }
    ensures a { a.new ≡ first_or (to_why found) a.old }
    ensures b { b.new ≡ second_or (to_why found) b.old }
    ensures gain { gain.new ≡ not_above_or (to_why found) gain.old }
{
    match found {
        Why::Cut(segment, origin) => {
            *reason = CUT;
            *kind = origin.kind();
            *number = origin.number();
            *length = written;
            put_ends(segment, start, stop);
        }
        Why::TooNear(segment) => {
            *reason = NEAR;
            put_ends(segment, start, stop);
        }
        Why::Barred(low, high, segment) => {
            *reason = BARRED;
            *a = low;
            *b = high;
            put_ends(segment, start, stop);
        }
        Why::NoNumber(segment) => {
            *reason = NAN;
            put_ends(segment, start, stop);
        }
        Why::NotAbove(value, segment) => {
            *reason = BELOW;
            *gain = value;
            put_ends(segment, start, stop);
        }
    }
}
