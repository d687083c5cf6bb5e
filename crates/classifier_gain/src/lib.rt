// A classifier's gain curve from its likelihoods, and what is refused of curves and their permutation test. Inside the library. After document 01, "Curves".
#![tactic(auto)]

ghost use Rattle.std.specs.Prelude.{◌≡◌, ◌≤◌, ◌∷◌, ◌++◌, length, take, nat_eq};
ghost use Rattle.std.specs.List.{list_all};
ghost use mathlib.Core.List.{flatten};
ghost use Rattle.scope.specs.Floats.{is_finite};
ghost use Rattle.scope.specs.Lists.{holding, every};
ghost use Rattle.scope.specs.Curves.{total_of, curve};
ghost use Rattle.scope.specs.Refusals.{first_of};
ghost use Rattle.scope.specs.Calls.{wrong_lengths, first_length, within, permutation_tests, curve_refusal};
ghost use Rattle.control.specs.Refused.{number_in};
ghost use Rattle.classifier_gain.specs.Asked.{bases_of, deltas_of, curve_is_finite, permutation_asked};

use control::{Refusal, Shortest};
use permutations::{Permutations, wrong_permutations};

// The sum of values, left to right from 0.
#[tactic(auto, unfolding(scope::specs::Curves::total_of))]
fn total(values: &[f64]) -> f64
    ensures { result ≡ total_of values.now (length values.now) }
{
    let mut sum = 0.0;
    for value in values {
        sum += value;
    }
    sum
}

// The curve: the gain of each split, from the rows' likelihoods l0 left and l1 right of it. g is what a split gains over the sum of l1.
// By row, since three slices are walked at once: `zip` of them would be no plainer.
#[tactic(auto, using(crate::proofs::Curved::curve_step, crate::proofs::Curved::length_curve), unfolding(scope::specs::Curves::raised, scope::specs::Curves::curve))]
pub fn gain_from_likelihoods(l0: &[f64], l1: &[f64], gain: &mut [f64])
    requires { (length l1.now ≡ length l0.now) × (length l0.now ≤ length gain.old) }
    ensures { gain.new ≡ holding (curve l0.now l1.now (length l0.now)) gain.old }
{
    let sum = total(l1);
    let mut g = 0.0;
    for i in 0..l0.len() {
        gain[i] = g + sum;
        g = (l0[i] - l1[i]) + g;
    }
}

const MOST_CURVES: usize = 3;

// A curve: its base sum and the deltas that are added to it.
#[derive(Clone, Copy)]
pub struct Curve<'a> {
    pub base: f64,
    pub deltas: &'a [f64],
}

impl Curve<'_> {
    // Whether its base and its deltas are finite.
    fn is_finite(self) -> bool
        ensures { result ≡ curve_is_finite self.entry }
    {
        control::is_finite(self.base) && control::all_finite(self.deltas)
    }
}

// Three curves are lent; the first k are looked at.
// C hosts lend three and a count, and a count that is none of 1 to 3 is refused, so it can't be a slice's length.
#[derive(Clone, Copy)]
pub struct Curves<'a> {
    pub lent: [Curve<'a>; 3],
    pub k: usize,
}

impl Curves<'_> {
    // Those that are looked at.
    pub fn counted(&self) -> &[Curve<'_>]
        ensures { result.now ≡ take self.now.k self.now.lent }
    {
        self.lent.get(..self.k).unwrap_or(&self.lent)
    }

    // Whether the observed maximum is finite, and each curve.
    #[tactic(auto, using(crate::proofs::Lents::finite_joined))]
    fn all_finite(self, maximum: f64) -> bool
        ensures { result ≡ every is_finite (maximum ∷ (take self.entry.k (bases_of self.entry.lent) ++ flatten (take self.entry.k (deltas_of self.entry.lent)))) }
    {
        control::is_finite(maximum) && self.are_finite()
    }

    // Whether each is finite.
    fn are_finite(self) -> bool
        ensures { result ≡ list_all curve_is_finite (take self.entry.k self.entry.lent) }
    {
        self.counted().iter().all(|curve| curve.is_finite())
    }

    // The first one's length, 0 if there is none.
    #[tactic(auto, using(crate::proofs::Lents::deltas_within))]
    pub fn first_length(self) -> usize
        ensures { result ≡ first_length (take self.entry.k (deltas_of self.entry.lent)) }
    {
        self.counted().first().map_or(0, |curve| curve.deltas.len())
    }

    // Whether some differ in length from l, or l is no curve's length.
    #[tactic(auto, using(crate::proofs::Lents::long_each), unfolding(scope::specs::Calls::wrong_lengths))]
    fn wrong_lengths(self, l: usize) -> bool
        ensures { result ≡ wrong_lengths l (take self.entry.k (deltas_of self.entry.lent)) }
    {
        !self.are_long(l) || control::is_outside(control::MOST_LENGTH, l)
    }

    // Whether each has the length l.
    fn are_long(self, l: usize) -> bool
        ensures { result ≡ list_all (λ c. nat_eq (length c.deltas.now) l) (take self.entry.k self.entry.lent) }
    {
        self.counted().iter().all(|curve| curve.deltas.len() == l)
    }
}

// What applies to a call for a curve.
#[tactic(auto, using(scope::proofs::Every::every_append), unfolding(scope::specs::Calls::curve_refusal, scope::specs::Calls::wrong_lengths, scope::specs::Lists::every))]
pub fn curve_refusal(l0: &[f64], l1: &[f64], room: usize) -> Result<(), Refusal>
    ensures { number_in result ≡ curve_refusal (record { l0 = l0.now; l1 = l1.now; room = room }) }
{
    if !control::all_finite(l0) || !control::all_finite(l1) {
        return Err(Refusal::NotFinite);
    }
    if room < l0.len() {
        return Err(Refusal::Room);
    }
    if l1.len() != l0.len() || control::is_outside(control::MOST_LENGTH, l0.len()) {
        return Err(Refusal::Curves);
    }
    Ok(())
}

// What applies to a call for a permutation test.
#[tactic(auto, unfolding(scope::specs::Refusals::outside))]
pub fn permutation_refusal(
    curves: Curves,
    permutations: Permutations,
    shortest: Shortest,
    alpha: f64,
    maximum: f64,
) -> Result<(), Refusal>
    ensures { number_in result ≡ first_of (permutation_tests (within (permutation_asked curves.entry permutations.entry shortest alpha maximum))) }
{
    if control::is_outside(control::MOST_LENGTH, shortest.m) {
        return Err(Refusal::Length);
    }
    if !control::is_between(0.0, 1.0, alpha) {
        return Err(Refusal::Threshold);
    }
    if !curves.all_finite(maximum) {
        return Err(Refusal::NotFinite);
    }
    let l = curves.first_length();
    if shortest.too_long_for(l) {
        return Err(Refusal::TooShort);
    }
    if wrong_permutations(permutations, l) {
        return Err(Refusal::Permutations);
    }
    if control::is_outside(MOST_CURVES, curves.k) || curves.wrong_lengths(l) {
        return Err(Refusal::Curves);
    }
    Ok(())
}
