// The permutation test of a curve's maximum. Inside the library. After document 01, "Permutation count", and classifier_gain.rs.
#![tactic(auto)]

ghost use Rattle.std.specs.Prelude.{◌≡◌, true, false, ◌+◌, ◌-◌, ◌*◌, ◌<◌, ◌≤◌, nat_lt, nat_eq, length, take};
ghost use Rattle.std.specs.Float.Ieee.{le};
ghost use Rattle.std.specs.List.{list_all, list_any};
ghost use Rattle.scope.specs.Lists.{every};
ghost use Rattle.scope.specs.Permutations.{wrong_permutations, add_deltas, added, reaches, exceeds, counter, p_value, is_significant};
ghost use Rattle.scope.specs.Calls.{wrong_lengths};
ghost use Rattle.control.specs.Settings.{shortest_of};
ghost use Rattle.classifier_gain.specs.Asked.{bases_of, deltas_of};

use classifier_gain::{Curve, Curves};
use control::Shortest;
use permutations::Permutations;

// Whether some sum is at least the maximum.
fn has_reached<const K: usize>(sums: [f64; K], maximum: f64) -> bool
    ensures { result ≡ list_any (λ s. le maximum s) sums.entry }
{
    sums.iter().any(|sum| *sum >= maximum)
}

// What a test is over: K curves, all of length l, the shortest part, and the observed maximum, which a sum must reach.
#[derive(Clone, Copy)]
struct Observed<'a, const K: usize> {
    curves: &'a [Curve<'a>],
    l: usize,
    shortest: Shortest,
    maximum: f64,
    ghost are_long: { (length curves.now ≡ K) × (1 ≤ shortest.m) × (2 * shortest.m ≤ l) × (l ≤ 4096) × (list_all (λ c. nat_eq (length c.deltas.now) l) curves.now ≡ true) },
}

// There is a sum for each curve.
impl<const K: usize> Observed<'_, K> {
    // Each curve's delta of the index i, added to that curve's sum.
    fn add_deltas(self, sums: [f64; K], i: usize) -> [f64; K]
        requires { i < self.l }
        ensures { result ≡ add_deltas (deltas_of self.entry.curves.now) i sums.entry }
    {
        let mut next = sums;
        // By number, since sums, curves and what comes next are walked at once: `zip` of them would be no plainer.
        for c in 0..K {
            next[c] = sums[c] + self.curves[c].deltas[i];
        }
        next
    }

    // The sums after some indices.
    fn sums_after(self, indices: &[usize], sums: [f64; K]) -> [f64; K]
        requires { every (λ v. nat_lt v self.l) indices.now ≡ true }
        ensures { result ≡ added (deltas_of self.entry.curves.now) indices.now sums.entry }
    {
        let mut after = sums;
        for &i in indices {
            after = self.add_deltas(after, i);
        }
        after
    }

    // Whether a sum reaches the maximum after one of the indices.
    fn reaches_maximum(self, indices: &[usize], sums: [f64; K]) -> bool
        requires { every (λ v. nat_lt v self.l) indices.now ≡ true }
        ensures { result ≡ reaches (deltas_of self.entry.curves.now) self.entry.maximum indices.now sums.entry }
    {
        let mut after = sums;
        for &i in indices {
            after = self.add_deltas(after, i);
            if has_reached(after, self.maximum) {
                return true;
            }
        }
        false
    }

    // One permutation: from the bases add the first m - 1 permuted deltas; a sum must reach the maximum with one of those that are tested.
    // These are l - 2m + 1. The closed end changes nothing here: it admits l = 2m, which tests once.
    fn exceeds_maximum(self, permutation: &[usize], bases: [f64; K]) -> bool
        requires length { length permutation.now ≡ self.l }
        requires inside { every (λ v. nat_lt v self.l) permutation.now ≡ true }
        ensures { result ≡ exceeds (shortest_of self.entry.shortest) self.entry.l bases.entry (deltas_of self.entry.curves.now) self.entry.maximum permutation.now }
    {
        let first = self.shortest.m - 1;
        let tested = self.l - 2 * self.shortest.m + 1;
        let sums = self.sums_after(&permutation[..first], bases);
        self.reaches_maximum(&permutation[first..first + tested], sums)
    }
}

// One more than how many of the permutations have a sum that reaches the maximum.
// It and `count_from` both name the facts, since `Observed`, which carries them, is made per K.
pub fn permutation_count(
    curves: Curves,
    permutations: Permutations,
    shortest: Shortest,
    maximum: f64,
    l: usize,
) -> usize
    requires le_k { (1 ≤ curves.k) × (curves.k ≤ 3) × (1 ≤ shortest.m) × (2 * shortest.m ≤ l) }
    requires are_long { wrong_lengths l (take curves.k (deltas_of curves.lent)) ≡ false }
    requires are_true { wrong_permutations permutations.p l permutations.indices.now ≡ false }
    ensures { result ≡ counter (shortest_of shortest) l (take curves.entry.k (bases_of curves.entry.lent)) (take curves.entry.k (deltas_of curves.entry.lent)) maximum permutations.entry.indices.now permutations.entry.p }
{
    let [first, second, third] = curves.lent;
    // The number of curves is known to the compiler from here on.
    match curves.k {
        1 => count_from([first.base], curves, permutations, shortest, maximum, l),
        2 => count_from(
            [first.base, second.base],
            curves,
            permutations,
            shortest,
            maximum,
            l,
        ),
        _ => count_from(
            [first.base, second.base, third.base],
            curves,
            permutations,
            shortest,
            maximum,
            l,
        ),
    }
}

// The same from K bases, where so many curves are looked at.
fn count_from<const K: usize>(
    bases: [f64; K],
    curves: Curves,
    permutations: Permutations,
    shortest: Shortest,
    maximum: f64,
    l: usize,
) -> usize
    requires le_m { (length (take curves.k curves.lent) ≡ K) × (1 ≤ shortest.m) × (2 * shortest.m ≤ l) }
    requires are_long { wrong_lengths l (take curves.k (deltas_of curves.lent)) ≡ false }
    requires are_true { wrong_permutations permutations.p l permutations.indices.now ≡ false }
    ensures { result ≡ counter (shortest_of shortest) l bases.entry (take curves.entry.k (deltas_of curves.entry.lent)) maximum permutations.entry.indices.now permutations.entry.p }
{
    let observed: Observed<K> = Observed {
        curves: curves.counted(),
        l,
        shortest,
        maximum,
    };
    let mut counted = 1;
    // By number, as `Permutations::at` takes them.
    for q in 0..permutations.p {
        if observed.exceeds_maximum(permutations.at(q, l), bases) {
            counted += 1;
        }
    }
    counted
}

// p = counter/(P+1).
pub fn p_value(counted: usize, p: usize) -> f64
    requires { (counted ≤ 1000) × (p ≤ 999) }
    ensures { result ≡ p_value counted p }
{
    (counted as f64) / ((p + 1) as f64)
}

// Whether a p-value is significant at alpha.
pub fn is_significant(p: f64, alpha: f64) -> bool
    ensures { result ≡ is_significant p alpha }
{
    p <= alpha
}
