// A run that is being fed: its state, and what is refused of it, of a lot of cells and of closing. Inside the library.
#![tactic(auto)]

ghost use Rattle.std.specs.Prelude.{◌≡◌, [], ◌∷◌, ◌+◌, ◌*◌, ◌≤◌, ltb};
ghost use Rattle.scope.specs.Refusals.{first_of};
ghost use Rattle.control.specs.Refused.{number_in};
ghost use Rattle.scope.specs.Feed.{cells_in, no13, no14, open_refusal, feed_refusal, close_tests};
ghost use Rattle.feed.specs.States.{state_of};

use control::Refusal;

// n rows of d columns, and how many of their cells were taken.
#[derive(Clone, Copy, Debug, PartialEq, Eq)]
pub struct State {
    pub n: usize,
    pub d: usize,
    pub count: usize,
}

// A state comes from the host unchecked, so its type says nothing of its sizes.
impl State {
    // Whether so many cells more are too many. The sum of both counts may be past the largest number, so it is not made.
    fn too_many(self, more: usize) -> bool
        requires { (self.n ≤ 4096) × (self.d ≤ 64) }
        ensures { result ≡ ltb (cells_in (state_of self)) (self.count + more) }
    {
        let cells = self.n * self.d;
        cells < self.count || cells - self.count < more
    }

    // Whether cells are still to come.
    fn is_open(self) -> bool
        requires { (self.n ≤ 4096) × (self.d ≤ 64) }
        ensures { result ≡ ltb self.count (cells_in (state_of self)) }
    {
        self.count < self.n * self.d
    }

    // 13 and 14: refused unless all cells were taken, and no more.
    pub fn count_refusal(self) -> Result<(), Refusal>
        requires { (self.n ≤ 4096) × (self.d ≤ 64) }
        ensures { number_in result ≡ first_of (no13 (state_of self) 0 ∷ no14 (state_of self) ∷ []) }
    {
        if self.too_many(0) {
            return Err(Refusal::TooManyCells);
        }
        if self.is_open() {
            return Err(Refusal::StillOpen);
        }
        Ok(())
    }
}

// What is refused of an opening in room for so many sums.
#[tactic(auto, using(crate::proofs::Sizes::small), unfolding(scope::specs::Feed::open_refusal))]
pub fn open_refusal(n: usize, d: usize, room: usize) -> Result<(), Refusal>
    ensures { number_in result ≡ open_refusal (record { n = n; d = d; room = room }) }
{
    if control::wrong_sizes(n, d, control::MOST_ROWS) {
        return Err(Refusal::Sizes);
    }
    if room < control::sums_len(n, d) {
        return Err(Refusal::Room);
    }
    Ok(())
}

// What is refused of a lot.
#[tactic(auto, using(crate::proofs::Sizes::small), unfolding(scope::specs::Feed::feed_refusal))]
pub fn feed_refusal(lot: &[f64], state: State, room: usize) -> Result<(), Refusal>
    ensures { number_in result ≡ feed_refusal (state_of state) lot.now room }
{
    if control::wrong_sizes(state.n, state.d, control::MOST_ROWS) {
        return Err(Refusal::Sizes);
    }
    if !control::all_finite(lot) {
        return Err(Refusal::NotFinite);
    }
    if room < control::sums_len(state.n, state.d) {
        return Err(Refusal::Room);
    }
    if state.too_many(lot.len()) {
        return Err(Refusal::TooManyCells);
    }
    Ok(())
}

// What is refused of closing.
#[tactic(auto, using(crate::proofs::Sizes::small))]
pub fn close_refusal(state: State) -> Result<(), Refusal>
    ensures { number_in result ≡ first_of (close_tests (state_of state)) }
{
    if control::wrong_sizes(state.n, state.d, control::MOST_ROWS) {
        return Err(Refusal::Sizes);
    }
    state.count_refusal()
}
