// Inside the library: truncation and ceiling to a whole number, f64 to the nearest f32, and the whole square root.
// After document 01, "Rounding helpers", and "Counts" for the root. Assumes nothing.
#![tactic(auto)]

// narrow is narrow.rt: the nearest f32 of an f64 above zero, by bit patterns.
mod narrow;

ghost use Rattle.std.specs.Prelude.{◌≡◌};
ghost use Rattle.scope.specs.Rounding.{truncation, ceiling, to_f32, whole_root};
ghost use Rattle.rounding.specs.Range.{in_range};

use narrow::nearest_above;

// x without its fraction. An f64 holds every f32: of one, pass `f64::from`.
pub fn truncation(x: f64) -> u64
    requires { in_range x }
    ensures { result ≡ truncation x }
{
    std::num::truncating_f64_to_u64(x)
}

// The least whole number that is not below x. Of an f32 likewise.
pub fn ceiling(x: f64) -> u64
    requires { in_range x }
    ensures { result ≡ ceiling x }
{
    let t = truncation(x);
    if (t as f64) < x { t + 1 } else { t }
}

// The f32 nearest to x, a tie to the one whose last digit is even. A NaN gives a NaN, a zero and an infinity keep
// their sign, and from 2^128 - 2^103 on, where the largest f32 is no longer nearer, the answer is an infinity.
pub fn nearest_f32(x: f64) -> f32
    ensures { result ≡ to_f32 x }
{
    if x.is_nan() {
        return f32::NAN;
    }
    if x > 0.0 {
        return nearest_above(x);
    }
    if x < 0.0 {
        return -nearest_above(-x);
    }
    // a zero is left, and it keeps its sign
    x as f32
}

// The greatest k with k * k at most l.
pub fn whole_root(l: usize) -> usize
    ensures { result ≡ whole_root l }
{
    l.isqrt()
}
