// What follows the operation on a line: numbers, and for an odd asphere a count `#n`.
ghost use Rattle.std.specs.Prelude.{◌+◌, ◌≤◌, IfSome};
ghost use Rattle.answers.specs.Operands.{Fit};

use lines::{Words, read_count, read_float};

pub type Values = [f64; 64];

// Counts, since the numbers stand in an array that the caller lends: there is no heap.
#[derive(Drop)]
pub enum Operands {
    // So many numbers.
    Plain(usize),
    // So many numbers, `#even`, so many even coefficients, and so many odd ones.
    Marked {
        before: usize,
        even: usize,
        odd: usize,
    },
}

// Reads operands, at most 64 with the count among them.
pub(crate) fn read_operands(words: Words<'_>, values: &mut Values) -> Option<Operands>
    ensures { IfSome result Fit }
{
    let mut count = 0;
    let mut mark = None;
    for word in words {
        if let Some(x) = read_float(word) {
            *values.get_mut(count)? = x;
            count += 1;
        } else if mark.is_none() {
            mark = Some((count, read_mark(word)?));
        } else {
            return None;
        }
    }
    match mark {
        None => Some(Operands::Plain(count)),
        Some((before, even)) => marked(before, even, count),
    }
}

// The n of `#n`.
fn read_mark(word: &[u8]) -> Option<usize> {
    let n = read_count(word.strip_prefix(b"#")?, 64)?;
    Some(n as usize)
}

// Of so many numbers some stand before `#even`, and at least `even` behind it.
fn marked(before: usize, even: usize, count: usize) -> Option<Operands>
    requires { (before ≤ count) × (count ≤ 64) }
    ensures { IfSome result Fit }
{
    // with `#even` it is one too many
    if count == 64 {
        return None;
    }
    let odd = (count - before).checked_sub(even)?;
    Some(Operands::Marked { before, even, odd })
}
