// What only shortens waits: guesses and bounds that stand in for a root that is not there yet. None changes an answer.
ghost use Rattle.std.specs.Prelude.{◌≡◌, true};
ghost use Rattle.std.specs.Float.Ieee.{neg};
ghost use Rattle.numbers.specs.Root.{root};
ghost use Rattle.surfaces.specs.Conic.{near_sag};
ghost use Rattle.surfaces.specs.Parts.{same_above0, root_again, SagNear};

use numbers::{abs, is_finite, sqrt};

// Whether two numbers are above zero and have one pattern. A NaN has no pattern to rely on.
fn same(x: f64, y: f64) -> bool
    ensures { result ≡ same_above0 x y }
{
    if (0.0 < x) & (0.0 < y) {
        f64::to_bits(x) == f64::to_bits(y)
    } else {
        false
    }
}

// The root of x, given that of y: the same where x is y.
#[tactic(auto, unfolding(crate::specs::Parts::root_again))]
pub(crate) fn root_again(x: f64, y: f64, s: f64) -> f64
    ensures { result ≡ root_again x y s }
{
    if same(x, y) { s } else { sqrt(x) }
}

// The root of x. Where y is the same number and known earlier, nobody waits for x.
pub(crate) fn root_beside(x: f64, y: f64) -> f64
    ensures { result ≡ root x }
{
    root_again(x, y, sqrt(y))
}

// About the base curve's sag, without its root: 1 / (1 + √(1 - u)) is 1/2 + u/8 + u²/16 + 5u³/128 + 7u⁴/256 + ...
// Nothing is promised of it.
pub(crate) fn base_curve_guess(cy: f64, ky: f64, y: f64) -> f64 {
    let u = (1.0 + ky) * cy * cy * (y * y);
    let u2 = u * u;
    cy * (y * y) * (0.5 + 0.125 * u + (0.0625 + 0.0390625 * u + 0.02734375 * u2) * u2)
}

// How far from the sag the local z of a point on the sheet through the vertex may be.
pub(crate) const SHEET_TOLERANCE: f64 = 1e-4;

// Whether z is surely within the tolerance of the sag at r, the root of sq, for a curvature c above 0 and
// b = (1 + k) * c * c. No root is worked out: r * r lies beside sq, the radicand's root beside `guess` if the squares
// say so, and the sag between those that these bounds give. Other kinds of c and b, and numbers near 0 or beyond 1e9,
// are left to the rule. 1e-9 and 1e-7 are wide for what rounding does and narrow beside the tolerance.
fn surely_near(z: f64, c: f64, b: f64, sq: f64, guess: f64) -> bool
    ensures { result ≡ true → SagNear z c b (root sq) × SagNear (neg z) (neg c) b (root sq) }
{
    let low = sq * 0.999999999;
    let high = sq * 1.000000001;
    let least = guess - 1e-7;
    let most = guess + 1e-7;
    let shallow = (c * low) / (1.0 + most);
    let deep = (c * high) / (1.0 + least);
    let above = (0.0 < z)
        & (0.0 < c)
        & (0.0 < b)
        & (1e-15 * 1e-15 < sq)
        & (0.0 < least)
        & (least < most);
    let small = (high < 1e9)
        & (c * high < 1e9)
        & (b * high < 1.0)
        & (1.0 + most < 4.0)
        & (deep < 1e9);
    let rooted = (least * least < 1.0 - b * high) & (1.0 - b * low < most * most);
    above & small & rooted & (z - shallow < SHEET_TOLERANCE) & (deep - z < SHEET_TOLERANCE)
}

// Whether z surely lies within the tolerance of the sag at r, the root of sq, on the sheet through the vertex. There
// the radicand's root is 1 - (1 + k) * c * z.
pub(crate) fn surely_near_sag(c: f64, k: f64, z: f64, sq: f64) -> bool
    ensures { result ≡ true → near_sag c k z (root sq) ≡ true }
{
    if !is_finite(k) | (abs(c) < 1e-15) {
        return false;
    }
    let b = (1.0 + k) * c * c;
    let guess = 1.0 - (1.0 + k) * c * z;
    if c < 0.0 {
        surely_near(-z, -c, b, sq, guess)
    } else {
        surely_near(z, c, b, sq, guess)
    }
}
