// Rows while the deck feeds: a run is opened, takes its cells in whatever lots arrive, and is closed. Its sheet is a tree over the sums that stand then
// (crate `entry_tree`, `fed_tree`).
// Entry points: whatever is passed in, each ends with an answer or with a refusal, which has changed no lent memory. None has a `requires`.
#![tactic(auto)]

ghost use Rattle.std.specs.Prelude.{length};
ghost use Rattle.feed.specs.States.{state_of};
ghost use Rattle.entry_feed.specs.Left.{OpenLeft, FeedLeft, Closes};

use control::Refusal;
use feed::State;

// Opens a run of n rows of d columns: no cell is taken yet, and the first d sums are 0.
#[tactic(auto, using(crate::proofs::Clean::open_fits), unfolding(scope::specs::Feed::open_call))]
pub fn open(n: usize, d: usize, sums: &mut [f64]) -> Result<State, Refusal>
    ensures { OpenLeft (record { n = n; d = d; room = length sums.old }) result sums.old sums.new }
{
    feed::open_refusal(n, d, sums.len())?;
    change_in_mean::clear_first_row(sums, d);
    Ok(State { n, d, count: 0 })
}

// Takes a lot of cells, which may end in the middle of a row or be empty: their prefix sums behind those that stand.
#[tactic(auto, using(crate::proofs::Clean::feed_clean), unfolding(scope::specs::Feed::feed_call))]
pub fn feed(lot: &[f64], state: State, sums: &mut [f64]) -> Result<State, Refusal>
    ensures { FeedLeft (record { state = state_of state; lot = lot.now; sums = sums.old }) result sums.new }
{
    feed::feed_refusal(lot, state, sums.len())?;
    change_in_mean::add_cells(lot, state.d, state.count, sums);
    Ok(State {
        count: state.count + lot.len(),
        ..state
    })
}

// Closes a run whose cells were all taken. The state stays as it is, also where closing is refused: the run may go on.
#[tactic(auto, unfolding(scope::specs::Feed::close_answer))]
pub fn close(state: State) -> Result<State, Refusal>
    ensures { Closes (state_of state) result }
{
    feed::close_refusal(state)?;
    Ok(state)
}
