// A line of words, put together in a buffer that the caller lends. A space follows each word, and the line feed takes
// the last one's place.
ghost use Rattle.std.specs.Prelude.{◌≡◌, ◌<◌, OnOk, take};
ghost use Rattle.std.specs.Float.{binary64};
ghost use Rattle.std.specs.Float.Ieee.{to_bits};
ghost use Rattle.std.specs.Io.KnownBytes.{Appends};
ghost use Rattle.lines.specs.Output.{glyph, hex_text, decimal_text, put, put_floats, ended};

use std::io::{ErrorKind, Result, Write};

// How many digits a count has at most, and a pattern always.
const COUNT_DIGITS: usize = 20;

const FLOAT_DIGITS: usize = 16;

// How many bytes they take, with the space behind.
pub const COUNT_BYTES: usize = COUNT_DIGITS + 1;

pub const FLOAT_BYTES: usize = FLOAT_DIGITS + 1;

// Puts a word and a space from a place on, and answers the next place. Where there is no room it puts nothing, and the
// place stays.
// No struct holds a lent buffer and its place: each function over it would promise besides that it lends the same one.
#[tactic(auto, unfolding(crate::specs::Output::put))]
pub fn put_word(out: &mut [u8], at: usize, word: &[u8]) -> usize
    ensures { (result, out.new) ≡ put out.old at word.now }
{
    if out.len().saturating_sub(at) <= word.len() {
        return at;
    }
    let space = at + word.len();
    out[at..space].copy_from_slice(word);
    out[space] = b' ';
    space + 1
}

// Puts a number in decimal, as `put_word` does.
#[tactic(auto, using(crate::proofs::Decimal::decimal_is))]
pub fn put_count(out: &mut [u8], at: usize, n: u64) -> usize
    ensures { (result, out.new) ≡ put out.old at (decimal_text 20 n) }
{
    let mut text = [0u8; COUNT_DIGITS];
    let k = io::decimal(n, &mut text);
    put_word(out, at, &text[..k])
}

// Puts a number's pattern in 16 hexadecimal digits, as `put_word` does.
pub fn put_float(out: &mut [u8], at: usize, x: f64) -> usize
    ensures { (result, out.new) ≡ put out.old at (hex_text 16 (to_bits binary64 x)) }
{
    let text = hex_text(bits_of(x));
    put_word(out, at, &text)
}

// Puts the patterns of numbers one after the other, each as `put_word` does.
#[tactic(auto, unfolding(crate::specs::Output::put_floats))]
pub fn put_floats(out: &mut [u8], at: usize, values: &[f64]) -> usize
    ensures { (result, out.new) ≡ put_floats (at, out.old) values.now }
{
    let mut end = at;
    for &x in values {
        end = put_float(out, end, x);
    }
    end
}

// A number's pattern. `to_bits` takes no NaN: one pattern stands for all of them.
#[tactic(auto, using(crate::proofs::Bits::nan_bits))]
pub fn bits_of(x: f64) -> u64
    ensures { result ≡ to_bits binary64 x }
{
    if x.is_nan() {
        0x7ff8_0000_0000_0000
    } else {
        x.to_bits()
    }
}

#[tactic(auto, unfolding(crate::specs::Output::hex_text))]
fn hex_text(bits: u64) -> [u8; FLOAT_DIGITS]
    ensures { result ≡ hex_text 16 bits }
{
    let mut text = [0u8; FLOAT_DIGITS];
    let mut rest = bits;
    for i in (0..FLOAT_DIGITS).rev() {
        text[i] = glyph(rest % 16);
        rest /= 16;
    }
    text
}

// The bound is known, so that the casts lose nothing: `try_from` would need an unwrap.
#[tactic(auto, unfolding(crate::specs::Output::glyph))]
fn glyph(value: u64) -> u8
    requires { value < 16 }
    ensures { result ≡ glyph value }
{
    if value < 10 {
        b'0' + value as u8
    } else {
        b'A' + (value as u8 - 10)
    }
}

// The line feed takes the place of the space behind the last word.
#[tactic(auto, unfolding(crate::specs::Output::ended))]
pub fn end_line(out: &mut [u8], end: usize)
    ensures { out.new ≡ ended out.old end }
{
    if end != 0 && end <= out.len() {
        out[end - 1] = b'\n';
    }
}

// Writes the words that were put, up to the next place, as a line.
pub fn write_line<W: Write>(output: &mut W, out: &mut [u8], end: usize) -> Result<()>
    ensures line { out.new ≡ ended out.old end }
    ensures written { OnOk result (Appends (W.contents output.old) (W.contents output.new) (take end out.new)) }
{
    end_line(out, end);
    let line = out.get(..end).ok_or(ErrorKind::InvalidInput)?;
    output.write_all(line)
}
