// The first step of a two-step search: guesses, and the pick from a lent gain curve.
// Entry points: whatever is passed in, each ends with an answer or with the refusal, which has changed no lent memory. None has a `requires`.
#![tactic(auto)]

ghost use Rattle.std.specs.Prelude.{◌≡◌};
ghost use Rattle.scope.specs.Calls.{pick_answer, guesses_answer};
ghost use Rattle.control.specs.Refused.{told};
ghost use Rattle.control.specs.Settings.{shortest_of};
ghost use Rattle.optimizer.specs.Records.{best_split_told};
ghost use Rattle.two_step_search.specs.Guessed.{rows_of};
ghost use Rattle.entry_two_step.specs.Answers.{list_lent};

use control::{Allowed, Refusal, Shortest};
use optimizer::optimizer_result::BestSplit;
use rows::{Position, Segment};
use two_step_search::Guesses;

// The candidate with the greatest value of the curve, which has an entry for each row of the segment and may hold infinities and NaN;
// the guess and minus infinity if none is greater than that.
pub fn pick(
    curve: &[f64],
    n: usize,
    allowed: Allowed,
    segment: Segment,
    guess: Position,
) -> BestSplit
    ensures answer { best_split_told result ≡ pick_answer (record { n = n; shortest = shortest_of allowed.entry.shortest; forbidden = allowed.entry.forbidden.now; start = segment.start.0; stop = segment.stop.0; guess = guess.0; curve = curve.now }) }
{
    if let Err(refusal) = two_step_search::pick_refusal(n, allowed, segment, guess, curve) {
        return BestSplit::Refused(refusal.number());
    }
    two_step_search::single_find_best_split(curve, allowed, segment, guess).best()
}

// The guesses for a segment. An empty forbidden list is not the same as none.
pub fn guesses(
    n: usize,
    shortest: Shortest,
    forbidden: Option<&[usize]>,
    segment: Segment,
) -> Result<Guesses, Refusal>
    ensures answer { told rows_of result ≡ guesses_answer (record { n = n; shortest = shortest_of shortest; forbidden = list_lent forbidden.entry; start = segment.start.0; stop = segment.stop.0 }) }
{
    let allowed = Allowed {
        shortest,
        forbidden: forbidden.unwrap_or(&[]),
    };
    two_step_search::guesses_refusal(n, allowed, segment)?;
    Ok(match forbidden {
        Some(_) => two_step_search::guesses_listed(allowed, segment),
        None => two_step_search::guesses_between(shortest, segment),
    })
}
