// The refusals that a deck earns by the program's limits: numbers 1 to 5, the lowest that applies; and what its run is asked with. Inside the library.
#![tactic(auto)]

ghost use Rattle.std.specs.Prelude.{◌≡◌, ◌*◌, ◌≤◌, length};
ghost use Rattle.control.specs.Refused.{number_in};
ghost use Rattle.control.specs.Settings.{matrix_of, settings_of};
ghost use Rattle.limits.specs.Limits.{wrong_given, wrong_held, given_refusal, Judged};
ghost use Rattle.limits.specs.Held.{matrix_held, settings_held};

use control::{Allowed, MOST_LENGTH, Matrix, Refusal, Settings, Shortest, Source};
use line::{Given, MOST_CELLS, MOST_PAIRS};
use std::num::f64_from_bits_with_nan;

// The program's own size of n.
const MOST_ROWS: usize = 256;

// The prefix sums of at most 2,048 cells: one row more, of at most 64.
pub const SUMS: usize = 2112;

#[tactic(auto, unfolding(crate::specs::Limits::wrong_given))]
fn wrong_sizes(deck: Given) -> bool
    ensures { result ≡ wrong_given deck }
{
    if control::wrong_sizes(deck.n, deck.d, MOST_ROWS) {
        return true;
    }
    let cells = deck.n * deck.d;
    MOST_CELLS < cells || deck.cells != cells
}

#[tactic(auto, unfolding(crate::specs::Limits::wrong_held))]
fn wrong_pairs(pairs: usize, forbidden: &[usize]) -> bool
    requires { 128 ≤ length forbidden.now }
    ensures { result ≡ wrong_held pairs forbidden.now }
{
    MOST_PAIRS < pairs || !control::well_paired(&forbidden[..2 * pairs])
}

// The refusal from what is kept of a deck, test by test.
// Apart from `refusal`, whose second clause follows from this answer, and would else be owed at each of six returns, by a proof for each.
#[tactic(auto, unfolding(crate::specs::Limits::given_refusal))]
fn given_refusal(deck: Given, forbidden: &[usize]) -> Result<(), Refusal>
    requires { 128 ≤ length forbidden.now }
    ensures { number_in result ≡ given_refusal deck forbidden.now }
{
    if wrong_sizes(deck) {
        return Err(Refusal::Sizes);
    }
    if control::is_outside(MOST_LENGTH, deck.m) {
        return Err(Refusal::Length);
    }
    if f64_from_bits_with_nan(deck.threshold).is_nan() {
        return Err(Refusal::Threshold);
    }
    if deck.wide {
        return Err(Refusal::NotFinite);
    }
    if wrong_pairs(deck.pairs, forbidden) {
        return Err(Refusal::Pairs);
    }
    Ok(())
}

// The deck's refusal; the forbidden pairs are those that `deck::feed` stored. `refusal` takes any slice that long: an array would ask more.
pub fn refusal(deck: Given, forbidden: &[usize]) -> Result<(), Refusal>
    requires { 128 ≤ length forbidden.now }
    ensures answer { number_in result ≡ given_refusal deck forbidden.now }
    ensures judged { Judged deck forbidden.now (number_in result) }
{
    given_refusal(deck, forbidden)
}

// The settings of a deck: the end is not closed, and it has no stored segments. Its forbidden pairs stand first in the slice that they were stored in,
// or are the whole slice where it holds fewer: nothing is asked of the caller.
pub fn settings(deck: Given, forbidden: &[usize]) -> Settings<'_>
    ensures { settings_of result ≡ settings_held deck forbidden.now }
{
    Settings {
        allowed: Allowed {
            shortest: Shortest {
                m: deck.m,
                closed: false,
            },
            forbidden: forbidden
                .get(..deck.pairs.saturating_mul(2))
                .unwrap_or(forbidden),
        },
        threshold: f64_from_bits_with_nan(deck.threshold),
        source: Source {
            layers: &[],
            draws: &[],
            w: 0,
        },
    }
}

// The matrix of a deck. Its cells stand first in the slice that they were stored in.
pub fn matrix(deck: Given, cells: &[f64]) -> Matrix<'_>
    requires { deck.n * deck.d ≤ length cells.now }
    ensures { matrix_of result ≡ matrix_held deck cells.now }
{
    Matrix {
        cells: &cells[..deck.n * deck.d],
        n: deck.n,
        d: deck.d,
    }
}
