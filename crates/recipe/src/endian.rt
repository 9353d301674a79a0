// Little-endian numbers at a place of a slice. Slice and place stand apart, as in the rules, which count places from the
// recipe's start and name no cut slice.
ghost use Rattle.std.specs.Prelude.{◌≡◌, length, ◌+◌, ◌*◌, ◌≤◌, ◌<◌};
ghost use Rattle.std.specs.Float.Ieee.Scale.{finite};
ghost use Rattle.surfaces.specs.Types.{every_finite};
ghost use Rattle.recipe.specs.Endian.{u16_at, u32_at, u64_at, number_at, numbers_at};

use numbers::from_bits;

// How many bytes a number takes.
pub(crate) const NUMBER_BYTES: usize = 8;

#[tactic(auto, unfolding(crate::specs::Endian::u16_at))]
pub(crate) fn u16_at(s: &[u8], at: usize) -> usize
    requires { at + 2 ≤ length s.now }
    ensures { (result ≡ u16_at s.now at) × (result < 65536) }
{
    usize::from(u16::from_le_bytes([s[at], s[at + 1]]))
}

#[tactic(auto, unfolding(crate::specs::Endian::u64_at, crate::specs::Endian::u32_at, crate::specs::Endian::u16_at))]
fn u64_at(s: &[u8], at: usize) -> u64
    requires { at + 8 ≤ length s.now }
    ensures { result ≡ u64_at s.now at }
{
    u64::from_le_bytes([
        s[at],
        s[at + 1],
        s[at + 2],
        s[at + 3],
        s[at + 4],
        s[at + 5],
        s[at + 6],
        s[at + 7],
    ])
}

#[tactic(auto, unfolding(crate::specs::Endian::number_at))]
pub(crate) fn number_at(s: &[u8], at: usize) -> f64
    requires { at + 8 ≤ length s.now }
    ensures { result ≡ number_at s.now at }
{
    from_bits(u64_at(s, at))
}

// By the pattern alone: the exponent's digits are not all ones.
#[tactic(auto, using(crate::proofs::Patterns::finite_pattern), unfolding(crate::specs::Endian::number_at))]
fn finite_at(s: &[u8], at: usize) -> bool
    requires { at + 8 ≤ length s.now }
    ensures { result ≡ finite (number_at s.now at) }
{
    u64_at(s, at) % 0x8000_0000_0000_0000 / 0x10_0000_0000_0000 != 2047
}

// Whether the n numbers from a place on are finite.
#[tactic(auto, using(crate::proofs::Numbers::finite_so_far))]
pub(crate) fn numbers_finite(s: &[u8], at: usize, n: usize) -> bool
    requires { at + 8 * n ≤ length s.now }
    ensures { result ≡ every_finite (numbers_at s.now at n) }
{
    for i in 0..n {
        if !finite_at(s, at + NUMBER_BYTES * i) {
            return false;
        }
    }
    true
}
