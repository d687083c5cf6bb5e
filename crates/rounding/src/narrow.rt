// The nearest f32 of an f64 above zero, in whole numbers. A pattern is an exponent's field and the digits below a
// leading one, which is not written. The f32's pattern is the f64's field, moved, and its 53 digits, rounded to 24. Where
// they round up to one digit more, that one carries into the field, and the sum is the next f32's pattern, as it has to
// be.
ghost use Rattle.std.specs.Prelude.{◌≡◌, ◌-◌, ◌<◌, true};
ghost use Rattle.std.specs.Float.Ieee.{lt};
ghost use Rattle.std.specs.Float.Ieee.Nearest.{closest};
ghost use Rattle.scope.specs.Floats.{+0};
ghost use Rattle.scope.specs.Rounding.{to_f32};

// The weight of the exponent's field in an f64's pattern, and of the leading one of its 53 digits: 2^52.
const F64_FIELD: u64 = 0x10_0000_0000_0000;

// The weight of the exponent's field in an f32's pattern, and of the leading one of its 24 digits: 2^23.
const F32_FIELD: u64 = 0x80_0000;

// The unit that 53 digits are rounded to, so that 24 are left: 2^29.
const UNIT: u64 = 0x2000_0000;

// The f64 field of 2^-126, the least normal f32. With each step below it the unit doubles.
const NORMAL: u64 = 897;

// The f64 field of 2^-150, half of the least f32 above zero. What is below that is nearer to zero.
const VANISHING: u64 = 873;

// The f32 pattern of infinity: a field of 255.
const INFINITY: u64 = 0x7f80_0000;

// n / d to the nearest whole number, a tie to the even one.
fn nearest_quotient(n: u64, d: u64) -> u64
    requires { 0 < d }
    ensures { result ≡ closest n d }
{
    let q = n / d;
    let rest = n % d;
    let missing = d - rest;
    if rest < missing {
        q
    } else if missing < rest {
        q + 1
    } else {
        q + q % 2
    }
}

// The f32 nearest to an x above zero, infinity included.
pub fn nearest_above(x: f64) -> f32
    requires { lt +0 x ≡ true }
    ensures { result ≡ to_f32 x }
{
    let bits = x.to_bits();
    let field = bits / F64_FIELD;
    let digits = F64_FIELD + bits % F64_FIELD;
    if field < VANISHING {
        return 0.0;
    }
    let kept = nearest_quotient(digits, UNIT << NORMAL.saturating_sub(field));
    let pattern = field.saturating_sub(NORMAL) * F32_FIELD + kept;
    if pattern < INFINITY {
        return f32::from_bits(pattern as u32);
    }
    f32::INFINITY
}
