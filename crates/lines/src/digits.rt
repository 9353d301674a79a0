// Words that spell numbers.
ghost use Rattle.std.specs.Prelude.{◌≡◌, ◌<◌, ◌≤◌, IfSome};
ghost use Rattle.lines.specs.Digits.{digit_value, joined, spelled, read_count, read_float};

use numbers::from_bits;

// The value of a hexadecimal digit of either case.
#[tactic(auto, unfolding(crate::specs::Digits::digit_value))]
pub fn digit_value(b: u8) -> Option<u64>
    ensures value { result ≡ digit_value b }
    ensures within { IfSome result (λ value. value < 16) }
{
    match b {
        b'0'..=b'9' => Some(u64::from(b - b'0')),
        b'A'..=b'F' => Some(u64::from(b - b'A' + 10)),
        b'a'..=b'f' => Some(u64::from(b - b'a' + 10)),
        _ => None,
    }
}

// The number that a digit of a base makes of those before it, if it is at most `most`.
#[tactic(auto, unfolding(crate::specs::Digits::joined))]
fn joined(n: u64, digit: u8, base: u64, most: u64) -> Option<u64>
    ensures number { result ≡ joined base most n digit }
    ensures within { IfSome result (λ sum. sum ≤ most) }
{
    let value = digit_value(digit).filter(|value| *value < base)?;
    n.checked_mul(base)?
        .checked_add(value)
        .filter(|sum| *sum <= most)
}

// The number that digits spell in a base, if it is at most `most`.
#[tactic(auto, unfolding(crate::specs::Digits::spelled))]
fn spelled(word: &[u8], base: u64, most: u64) -> Option<u64>
    ensures number { result ≡ spelled base most 0 word.now }
    ensures within { IfSome result (λ n. n ≤ most) }
{
    let mut n = 0;
    for &b in word {
        n = joined(n, b, base, most)?;
    }
    Some(n)
}

// A decimal number, at most `most`.
#[tactic(auto, unfolding(crate::specs::Digits::read_count), using(crate::proofs::Within::read_count_within))]
pub fn read_count(word: &[u8], most: u64) -> Option<u64>
    ensures number { result ≡ read_count most word.now }
    ensures within { IfSome result (λ n. n ≤ most) }
{
    if word.is_empty() {
        return None;
    }
    spelled(word, 10, most)
}

// The binary64 number of a pattern of 16 hexadecimal digits.
#[tactic(auto, unfolding(crate::specs::Digits::read_float))]
pub fn read_float(word: &[u8]) -> Option<f64>
    ensures { result ≡ read_float word.now }
{
    if word.len() != 16 {
        return None;
    }
    let bits = spelled(word, 16, u64::MAX)?;
    Some(from_bits(bits))
}
