// A call for the later sheet of a fed run, up to its growing: judged, and where nothing is refused the stored segments' records stored, over sums that stand.
ghost use Rattle.std.specs.Prelude.{◌≡◌};
ghost use Rattle.scope.specs.Refusals.{first_of};
ghost use Rattle.scope.specs.Feed.{fed_run_tests, fed_refusal};
ghost use Rattle.control.specs.Refused.{number_in};
ghost use Rattle.control.specs.Settings.{settings_of};
ghost use Rattle.feed.specs.States.{state_of};
ghost use Rattle.prepared.specs.Answers.{room_of, FedPrepares};

use crate::{Prepared, Room};
use change_in_mean::ChangeInMean;
use control::{Refusal, Settings};
use feed::State;

// What the later sheet of a fed run is refused for up to 6: there are no cells to judge.
fn run_refusal(state: State, settings: Settings) -> Result<(), Refusal>
    ensures { number_in result ≡ first_of (fed_run_tests (state_of state) (settings_of settings.entry)) }
{
    if control::wrong_sizes(state.n, state.d, control::MOST_ROWS) {
        return Err(Refusal::Sizes);
    }
    if control::is_outside(control::MOST_LENGTH, settings.allowed.shortest.m) {
        return Err(Refusal::Length);
    }
    if settings.threshold.is_nan() {
        return Err(Refusal::Threshold);
    }
    if !control::well_paired(settings.allowed.forbidden) {
        return Err(Refusal::Pairs);
    }
    draws::source_refusal(settings.source)
}

// What the later sheet of a fed run is refused for.
#[tactic(auto, unfolding(scope::specs::Feed::fed_refusal))]
pub fn refusal(state: State, settings: Settings, room: Room) -> Result<(), Refusal>
    ensures { number_in result ≡ fed_refusal (state_of state) (settings_of settings.entry) (room_of room) }
{
    run_refusal(state, settings)?;
    crate::room_refusal(
        state.n,
        state.d,
        settings.allowed.shortest,
        settings.source,
        room,
    )?;
    if draws::any_past(settings.source.draws, state.n) {
        return Err(Refusal::Segment);
    }
    state.count_refusal()
}

// Judges every refusal of a call for the later sheet of a fed run; then the stored segments' records, over the sums of its rows.
pub fn prepare(
    sums: &[f64],
    state: State,
    settings: Settings,
    rows: &mut [usize],
    gains: &mut [f64],
    nodes: usize,
    cuts: usize,
) -> Result<Prepared, Refusal>
    ensures { FedPrepares (state_of state) (settings_of settings.entry) nodes cuts result (record { sums = sums.now; rows = rows.old; gains = gains.old }) (record { sums = sums.now; rows = rows.new; gains = gains.new }) }
{
    let room = Room::lent(sums, rows, gains, nodes, cuts);
    refusal(state, settings, room)?;
    let len = control::sums_len(state.n, state.d);
    let gain = ChangeInMean {
        sums: &sums[..len],
        d: state.d,
    };
    let stored = segmentation::store_records(
        gain,
        state.n,
        settings.allowed,
        settings.source,
        rows,
        gains,
    );
    Ok(Prepared { len, stored })
}
