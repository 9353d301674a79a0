// The square root. Float arithmetic makes a guess of which nothing is promised. An exact difference of whole numbers
// tells how far it is off, and where that is far, the root is worked out digit by digit.
//
// A number's units are multiples of 2^-1074. Where n units times 2^1074 is m * 2^42 * 2^(2k), and q is the whole number
// nearest to √(m * 2^42), the root is q * 2^k units, whose pattern is k * 2^52 + q.
ghost use Rattle.std.specs.Prelude.{◌≡◌, ℕ, ◌+◌, ◌-◌, ◌*◌, ◌%◌, ◌^◌, ◌<◌, ◌≤◌, true};
ghost use Rattle.numbers.specs.Arithmetic.{◌<₆₄◌};
ghost use Rattle.numbers.specs.Root.{root, root_units};
ghost use Rattle.numbers.specs.Parts.{Near, Above, Close, pattern_units, form_radicand, Formed};

use crate::basic::INFINITY;

// 2^52: the weight of the exponent's field in a pattern.
const FIELD: u64 = 0x10_0000_0000_0000;

// The pattern of 2^-959: from there on a guess neither meets subnormal numbers nor overflows.
const LEAST: u64 = 0x400_0000_0000_0000;

// The patterns of 1, and of the number 2^27 units in the last place below it.
const ONE: u64 = 0x3ff0_0000_0000_0000;

const BELOW_ONE: u64 = 0x3fef_ffff_f800_0000;

// 2^21: the weight of the upper 32 digits of a guess at a root's digits.
const SPLIT: u64 = 0x20_0000;

// 2^15: up to here a difference of the upper digits is small, and the guess at most 16 off.
const NEAR: u64 = 0x8000;

// 2^63: from here on a difference that may have wrapped is one below zero.
const BELOW_ZERO: u64 = 0x8000_0000_0000_0000;

// The whole number nearest to √(m * 2^42). Each turn takes two more binary digits and gives one of r; a has those that
// are left, and rest is what r * r leaves of those taken.
fn digit_by_digit(m: u64) -> u64
    requires { 2 ^ 62 ≤ m }
    ensures { Near (m * 2 ^ 42) result }
{
    let mut a = m;
    let mut r = 0u64;
    let mut rest = 0u64;
    while r < FIELD {
        rest = rest * 4 + (a >> 62);
        a = a << 2;
        r *= 2;
        if r * 2 < rest {
            rest -= r * 2 + 1;
            r += 1;
        }
    }
    if r < rest { r + 1 } else { r }
}

// How far (g - 1) * g is above m * 2^42, which may have wrapped below 0. With g = a * 2^21 + c and d = m - a * a that
// is a * c * 2^22 - d * 2^42 + c * c - g.
fn excess(m: u64, g: u64) -> u64
    requires { g < 2 ^ 53 }
    ensures { (result + (m * 2 ^ 42 + g)) % 2 ^ 64 ≡ g * g % 2 ^ 64 }
{
    let a = g / SPLIT;
    let c = g % SPLIT;
    let d = std::num::wrapping_sub_u64(m, a * a);
    let square = std::num::wrapping_add_u64((a * c) << 22, c * c);
    std::num::wrapping_sub_u64(square, std::num::wrapping_add_u64(d << 42, g))
}

// Whether g is so near √(m * 2^42) that its excess fits a word: d has to be near a * c / 2^20.
fn is_close(m: u64, g: u64) -> bool
    requires { 2 ^ 62 ≤ m }
    ensures { result ≡ true → Close m g }
{
    if g / FIELD != 1 {
        return false;
    }
    let a = g / SPLIT;
    let c = g % SPLIT;
    let d = std::num::wrapping_sub_u64(m, a * a);
    let off = std::num::wrapping_sub_u64(d, a * c / 0x10_0000);
    std::num::wrapping_add_u64(off, NEAR) < NEAR * 2
}

// How many steps it is from g up to the whole number nearest to √(m * 2^42), which is the first q whose q * (q + 1) is
// not below m * 2^42. It is above that by over, which from q to the next grows by 2q + 2.
fn steps_up(m: u64, g: u64, above: u64) -> u64
    requires { (2 ^ 51 ≤ g) × (g ≤ 2 ^ 53) × Above m g above × (g * g < m * 2 ^ 42 + g) }
    ensures { Near (m * 2 ^ 42) (g + result) }
{
    let mut n = 0u64;
    let mut q = g;
    let mut over = above;
    while BELOW_ZERO <= over {
        n += 1;
        q += 1;
        over = std::num::wrapping_add_u64(over, q * 2);
    }
    n
}

// A float near √x, for a y near 0.77 / √x: the nearest but for about one in three hundred. Nothing is promised of it.
// bench/fit-guess says where the numbers come from.
fn guess(x: f64, y: f64) -> f64 {
    // a cubic in x * y * y makes good what y differs by: half is √x / 2 and j is 1 / (2√x), to 20 binary digits
    let a = x * y;
    let k = a * y - 0.4932961604439814;
    let l = 0.9942646501618928 - k;
    let p = k * k + 0.7158848417965896;
    let half = a * l * p;
    let j = y * l * p;
    // g is √x to 25 or 26 digits, so that x - g * g is exact, and √x is g + (x - g * g) / (√x + g), where
    // j * (7/4 - (g + half) * j) is 1 / (√x + g) to 38 digits
    let far = a * 268435456.0;
    let g = (a + a) * l * p + far - far;
    g + (x - g * g) * j * (1.7500000000015299 - (g + half) * j)
}

// The pattern of a number that has the digits of the one whose root is sought, and the power of two that its root is
// larger by.
#[derive(Drop)]
struct Form {
    b: u64,
    up: u64,
}

// Below 2^-959, where processors are slow, and the guess less near, the guess is made at a number 2^512 times as large.
fn form_of(b: u64) -> Form
    requires { (0 < b) × (b < 0x7ff0_0000_0000_0000) }
    ensures { Formed b result.b result.up }
{
    if LEAST <= b {
        return Form { b, up: 0 };
    }
    if b < FIELD {
        // a subnormal number's digits are moved up to where a normal one's stand
        let z = u64::leading_zeros(b) as u64 - 11;
        return Form {
            b: (b << z) + (512 - z) * FIELD,
            up: 256,
        };
    }
    Form {
        b: b + 512 * FIELD,
        up: 256,
    }
}

// The float whose pattern is that of the form, which for most numbers is x itself. Nothing is promised of it.
#[tactic(auto, using(crate::proofs::Patterns::within))]
fn float_of(x: f64, b: u64, up: u64) -> f64
    requires { b < 0x7ff0_0000_0000_0000 }
{
    if up == 0 {
        return x;
    }
    f64::from_bits(b)
}

// A float near 0.77 / √x, for an x whose pattern is b. Within 1/16 of 1, where lie the radicands of surfaces that are
// not steep, it is at hand sooner. Nothing is promised of it.
#[tactic(auto, using(crate::proofs::Patterns::within))]
fn start(b: u64) -> f64
    requires { b < 0x7ff0_0000_0000_0000 }
{
    if std::num::wrapping_sub_u64(b / 0x1_0000_0000_0000, 0x3fee) < 3 {
        return 0.7675;
    }
    f64::from_bits(0x5fe0_b800_0000_0000 - b / 2)
}

// b and up come apart here: what makes them a form is known of the number that they are of, not of the two alone.
// The root that a form of b and up seeks, from a guess g at that of its number. A guess that is the root is returned as
// it is, and waits for no test.
fn root_of(g: f64, b: u64, up: u64) -> f64
    requires { (2 ^ 52 ≤ b) × (b < 0x7ff0_0000_0000_0000) × (up ≤ 256) }
    ensures { (n : ℕ) → n * 2 ^ 1074 ≡ form_radicand b up → result ≡ root_units n }
{
    let m = (b % FIELD + FIELD) << (11 - b / FIELD % 2);
    let k = (b + FIELD) / (2 * FIELD) + 510;
    if g > 0.0 {
        let w = f64::to_bits(g);
        let q = std::num::wrapping_sub_u64(w, k * FIELD);
        if is_close(m, q) {
            let over = excess(m, q);
            // (q - 2) * (q - 1) is below m * 2^42, and so the nearest not below q - 1
            if BELOW_ZERO <= std::num::wrapping_sub_u64(over, q * 2 - 2) {
                let n = steps_up(m, q - 1, over);
                let change = std::num::wrapping_sub_u64(n, up * FIELD + 1);
                if change == 0 {
                    return g;
                }
                return f64::from_bits(std::num::wrapping_add_u64(w, change));
            }
        }
    }
    f64::from_bits((k - up) * FIELD + digit_by_digit(m))
}

// The root of a number within 2^27 units in the last place of 1: halfway from 1, and one unit down where that is
// between two.
fn near_one(b: u64) -> f64
    requires { (0x3fef_ffff_f800_0000 ≤ b) × (b < 0x3ff0_0000_0800_0000) }
    ensures { result ≡ root_units (pattern_units b) }
{
    f64::from_bits((b + ONE) / 2)
}

// Of a number that is not above zero only a zero, -0.0 too, has a root.
pub fn sqrt(x: f64) -> f64
    ensures { result ≡ root x }
{
    if x > 0.0 {
        let b = f64::to_bits(x);
        if std::num::wrapping_sub_u64(b, BELOW_ONE) < 0x1000_0000 {
            return near_one(b);
        }
        if b < INFINITY {
            let f = form_of(b);
            return root_of(guess(float_of(x, f.b, f.up), start(f.b)), f.b, f.up);
        }
        return x;
    }
    if x == 0.0 {
        return x;
    }
    x / 0.0 * 0.0
}

// Whether the root of x is above y: seldom needs the root itself. Where it is, x is above the square of a y above 0,
// and rounding keeps order, so x is not below y * y. It may equal y * y, where that has underflowed.
pub fn root_exceeds(x: f64, y: f64) -> bool
    ensures { result ≡ (y <₆₄ root x) }
{
    if (0.0 < y) & (x < y * y) {
        return false;
    }
    y < sqrt(x)
}
