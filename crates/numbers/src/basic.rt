// Kinds of numbers, magnitude, maximum and clamp.
ghost use Rattle.std.specs.Prelude.{◌≡◌, from_bits, is_nan};
ghost use Rattle.std.specs.Float.{binary64};
ghost use Rattle.std.specs.Float.Ieee.Scale.{finite};
ghost use Rattle.numbers.specs.Basic.{magnitude, larger, clamped, infinite};

// 2^63: the weight of the sign in a pattern.
const SIGN: u64 = 0x8000_0000_0000_0000;

// The pattern of infinity.
pub(crate) const INFINITY: u64 = 0x7ff0_0000_0000_0000;

pub fn is_nan(x: f64) -> bool
    ensures { result ≡ is_nan x }
{
    x != x
}

// Here and below by hand: what std promises of these leaves zeros of both signs and NaN open, or speaks of no rule.
// The difference is 0 for a finite number and NaN for any other.
pub fn is_finite(x: f64) -> bool
    ensures { result ≡ finite x }
{
    x - x == 0.0
}

pub fn is_infinite(x: f64) -> bool
    ensures { result ≡ infinite x }
{
    abs(x) == 1.0 / 0.0
}

// 0.0 less a zero of either sign is +0.0, and less a NaN is NaN.
pub fn abs(x: f64) -> f64
    ensures { result ≡ magnitude x }
{
    if x > 0.0 { x } else { 0.0 - x }
}

// Beyond the first two tests one is NaN or both are equal, and of equal ones only the signs of zeros differ.
pub fn max(x: f64, y: f64) -> f64
    ensures { result ≡ larger x y }
{
    if x < y {
        return y;
    }
    if y < x {
        return x;
    }
    if is_nan(x) {
        return y;
    }
    if is_nan(y) {
        return x;
    }
    if f64::to_bits(x) / SIGN == 1 { y } else { x }
}

// Into the range from 0 to 1.
#[tactic(auto, unfolding(crate::specs::Basic::clamped), using(crate::proofs::Literals::literals))]
pub fn clamp(x: f64) -> f64
    ensures { result ≡ clamped x }
{
    if x < 0.0 {
        return 0.0;
    }
    if x > 1.0 {
        return 1.0;
    }
    x
}

// `f64::from_bits` takes no NaN's pattern.
pub fn from_bits(bits: u64) -> f64
    ensures { result ≡ from_bits binary64 bits }
{
    if bits % SIGN > INFINITY {
        0.0 / 0.0
    } else {
        f64::from_bits(bits)
    }
}
