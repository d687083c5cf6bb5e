// Gain curves and the permutation test, exported.
ghost use Rattle.std.specs.Prelude.{[], ◌∷◌};
ghost use Rattle.entry_curves.specs.Left.{CurveLeft};
ghost use Rattle.changeforest_c.specs.Stored.{PermutationStored};

use classifier_gain::{Curve, Curves};
use control::Shortest;
use permutations::Permutations;

// The gain curve of two rows of likelihoods, into curve.
#[unsafe(no_mangle)]
pub extern "C" fn changeforest_gain_from_likelihoods(
    l0: &[f64],
    l1: &[f64],
    curve: &mut [f64],
) -> u32
    ensures { CurveLeft l0.now l1.now result curve.old curve.new }
{
    told::tell_done(entry_curves::gain_from_likelihoods(l0, l1, curve))
}

// How many of p permutations reach the observed maximum (counted from 1), their share, and whether it is significant. Of three bases and
// curves of deltas the first k are looked at.
#[unsafe(no_mangle)]
pub extern "C" fn changeforest_permutation_test(
    deltas0: &[f64],
    deltas1: &[f64],
    deltas2: &[f64],
    base0: f64,
    base1: f64,
    base2: f64,
    k: usize,
    permutations: &[usize],
    p: usize,
    m: usize,
    closed: bool,
    alpha: f64,
    maximum: f64,
    counter: &mut usize,
    p_value: &mut f64,
    significant: &mut bool,
) -> u32
    ensures { PermutationStored (record { shortest = record { m = m; closed = closed }; alpha = alpha; maximum = maximum; k = k; bases = base0 ∷ base1 ∷ base2 ∷ []; curves = deltas0.now ∷ deltas1.now ∷ deltas2.now ∷ []; P = p; permutations = permutations.now }) result counter.old counter.new p_value.old p_value.new significant.old significant.new }
{
    let lent = [
        Curve {
            base: base0,
            deltas: deltas0,
        },
        Curve {
            base: base1,
            deltas: deltas1,
        },
        Curve {
            base: base2,
            deltas: deltas2,
        },
    ];
    let permutations = Permutations {
        indices: permutations,
        p,
    };
    let shortest = Shortest { m, closed };
    match entry_curves::permutation_test(
        Curves { lent, k },
        permutations,
        shortest,
        alpha,
        maximum,
    ) {
        Ok(found) => {
            *counter = found.counter;
            *p_value = found.p_value;
            *significant = found.is_significant;
            0
        }
        Err(refusal) => refusal.number(),
    }
}
