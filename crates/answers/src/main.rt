// Answers each question on standard input. A question is a line: an operation, and the bit patterns of the numbers that
// the function of that name in `numbers` or `surfaces` is asked about. Its answer is a line: the number of the table
// (SCOPE T1), and the bit patterns of the values that the function hands out. A line that cannot be read as its
// operation wants is answered `?`.
#![tactic(auto)]

mod answer;
mod asphere;
mod biconic;
mod conic;
mod operands;
mod plain;

use answer::{Printed, print};
use asphere::{answer_even, answer_odd};
use biconic::{answer_biconic, answer_toroid};
use conic::answer_conic;
use lines::{LONGEST_LINE, Lines, Words};
use operands::{Operands, read_operands};
use plain::answer_plain;
use std::io::{Read, Result, Write};

// The longest line that is read, and its line feed.
const BUFFER: usize = LONGEST_LINE + 1;

// What stands before a name's first `_` tells of which kind of surface it is, if of any.
fn answer_numbers(name: &[u8], operands: &[f64]) -> Option<Printed> {
    let mut parts = name.splitn(2, |b| *b == b'_');
    let kind = parts.next().unwrap_or_default();
    let method = parts.next().unwrap_or_default();
    match kind {
        b"conic" => answer_conic(method, operands),
        b"even" => answer_even(method, operands),
        b"biconic" => answer_biconic(method, operands),
        b"toroid" => answer_toroid(method, operands),
        _ => answer_plain(name, operands),
    }
}

fn answer_line(line: &[u8]) -> Option<Printed> {
    let mut values = [0.0; 64];
    let mut words = Words(line);
    let name = words.next()?;
    match read_operands(words, &mut values)? {
        Operands::Plain(count) => answer_numbers(name, &values[..count]),
        Operands::Marked { before, even, odd } => answer_odd(
            name,
            &values[..before],
            &values[before..before + even],
            &values[before + even..before + even + odd],
        ),
    }
}

// Nothing says that the input ends, and a proved loop has to: no run uses up so many turns.
fn answer_all<R: Read, W: Write>(lines: &mut Lines<R, BUFFER>, output: &mut W) -> Result<()> {
    for _ in 0..u64::MAX {
        let Some(line) = lines.next_line() else {
            break;
        };
        print(line.ok().and_then(answer_line), output)?;
    }
    Ok(())
}

fn main(rt: HostRuntime) {
    let mut lines = Lines::new(rt.stdin());
    // a writing that fails ends the run, as the input's end does
    let _ = answer_all(&mut lines, &mut rt.stdout());
}
