// Draws of wild segments: the pairs of a lent list, what is refused of the lists that stored segments come from, and room for their records.
// Inside the library. After segmentation.rs, "WBS"; the draws are lent.
#![tactic(auto)]

ghost use Rattle.std.specs.Prelude.{◌≡◌, false, ◌+◌, ◌<◌, length, get_or};
ghost use Rattle.scope.specs.Refusals.{first_of, wrong_layers};
ghost use Rattle.scope.specs.Draws.{is_searched, is_odd, both_given, is_past, any_past, most_stored, source_tests};
ghost use Rattle.rows.specs.Segments.{to_segment};
ghost use Rattle.control.specs.Refused.{number_in};
ghost use Rattle.control.specs.Settings.{source_of};

use control::{Refusal, Source};
use rows::{Position, Segment};

// W is at most this.
pub const MOST_WILD: usize = 4096;

// The draw whose pair stands at a place: a pair of the list, wherever it stands.
pub fn draw_at(draws: &[usize], at: usize) -> Segment
    requires { at + 1 < length draws.now }
    ensures { to_segment result ≡ record { start = get_or draws.now at 0; stop = get_or draws.now (at + 1) 0 } }
{
    Segment {
        start: Position(draws[at]),
        stop: Position(draws[at + 1]),
    }
}

// Whether a draw is searched; one that stops where it starts, or before, is passed over.
pub fn is_searched(draw: Segment) -> bool
    ensures { result ≡ is_searched (to_segment draw) }
{
    draw.start < draw.stop
}

// Whether a draw stops past the run's n rows.
fn is_past(draw: Segment, n: usize) -> bool
    ensures { result ≡ is_past n (to_segment draw) }
{
    n < draw.stop.0
}

// Whether any draw of the list does, one that is passed over or never reached too.
pub fn any_past(draws: &[usize], n: usize) -> bool
    ensures { result ≡ any_past n draws.now }
{
    for pair in draws.chunks_exact(2) {
        if is_past(draw_at(pair, 0), n) {
            return true;
        }
    }
    false
}

// Whether an entry of the list has no partner.
#[tactic(auto, unfolding(scope::specs::Draws::is_odd))]
fn is_odd(draws: &[usize]) -> bool
    ensures { result ≡ is_odd draws.now }
{
    draws.len() % 2 == 1
}

// Whether there are layers and draws.
#[tactic(auto, unfolding(scope::specs::Draws::both_given))]
fn both_given(layers: &[f64], draws: &[usize]) -> bool
    ensures { result ≡ both_given layers.now draws.now }
{
    !layers.is_empty() && !draws.is_empty()
}

// 5 and 6 of what stored segments come from.
pub fn source_refusal(source: Source) -> Result<(), Refusal>
    ensures { number_in result ≡ first_of (source_tests (source_of source.entry)) }
{
    if is_odd(source.draws) {
        return Err(Refusal::Pairs);
    }
    if layers::wrong_layers(source.layers) {
        return Err(Refusal::Source);
    }
    if both_given(source.layers, source.draws) {
        return Err(Refusal::Source);
    }
    if MOST_WILD < source.w {
        return Err(Refusal::Source);
    }
    Ok(())
}

// T, the most records that are stored: W where there are draws, else the layers' counts summed.
pub fn most_stored(source: Source) -> usize
    requires { wrong_layers source.layers.now ≡ false }
    ensures { result ≡ most_stored (source_of source.entry) }
{
    if source.draws.is_empty() {
        return layers::layers_total(source.layers);
    }
    source.w
}
