// Gain curves from likelihoods, and the permutation test of their maximum.
// Entry points: whatever is passed in, each ends with an answer or with a refusal, which has changed no lent memory. None has a `requires`.
#![tactic(auto)]

ghost use Rattle.std.specs.Prelude.{◌≡◌};
ghost use Rattle.scope.specs.Calls.{permutation_answer};
ghost use Rattle.control.specs.Refused.{number_in, told};
ghost use Rattle.classifier_gain.specs.Asked.{permutation_asked};
ghost use Rattle.entry_curves.specs.Answers.{to_tested};
ghost use Rattle.entry_curves.specs.Left.{CurveLeft};

use classifier_gain::Curves;
use control::{Refusal, Shortest};
use permutations::Permutations;

// What a permutation test found.
#[derive(Clone, Copy, Debug, PartialEq)]
pub struct TestResult {
    pub counter: usize,
    pub p_value: f64,
    pub is_significant: bool,
}

// The gain curve of two rows of likelihoods, into `curve`.
pub fn gain_from_likelihoods(l0: &[f64], l1: &[f64], curve: &mut [f64]) -> Result<(), Refusal>
    ensures { CurveLeft l0.now l1.now (number_in result) curve.old curve.new }
{
    classifier_gain::curve_refusal(l0, l1, curve.len())?;
    classifier_gain::gain_from_likelihoods(l0, l1, curve);
    Ok(())
}

// How many of the permutations have a sum that reaches the observed maximum, and whether so few are significant.
pub fn permutation_test(
    curves: Curves,
    permutations: Permutations,
    shortest: Shortest,
    alpha: f64,
    maximum: f64,
) -> Result<TestResult, Refusal>
    ensures { told to_tested result ≡ permutation_answer (permutation_asked curves.entry permutations.entry shortest alpha maximum) }
{
    classifier_gain::permutation_refusal(curves, permutations, shortest, alpha, maximum)?;
    let l = curves.first_length();
    let counter = permutation_test::permutation_count(curves, permutations, shortest, maximum, l);
    let p_value = permutation_test::p_value(counter, permutations.p);
    Ok(TestResult {
        counter,
        p_value,
        is_significant: permutation_test::is_significant(p_value, alpha),
    })
}
