// Lists what a trace leaves. The file on standard input has the ray and its starting index, and then the recipe. Each
// record that was written is told by a line: number, status, steps and slots 1 to 11. The last line has `end`, the
// outcome, all steps and the path. A file that is refused is told by `refused`, the number and the place. Where reading
// or writing fails, a word on standard error says which, and the exit status is 0 all the same.
#![tactic(auto)]

ghost use Rattle.std.specs.Prelude.{◌≤◌, length, IfOk};

mod listing;

use listing::{MOST_BYTES, list};
use std::io::{Read, Result, Write};
use trace::{MOST_RECIPE_BYTES, SOURCE_BYTES};

// The ray's bytes, the longest recipe's and one: by a theorem these alone decide what is printed of a longer file.
const FILE: usize = SOURCE_BYTES + MOST_RECIPE_BYTES + 1;

// Reads until the input ends, the buffer is full or a read fails, and answers how many bytes were read.
// By hand, since no method of std fills a buffer as far as the input goes.
fn read_input<R: Read>(input: &mut R, file: &mut [u8]) -> Result<usize>
    ensures { IfOk result (λ held. held ≤ length file.new) }
{
    let mut held = 0;
    while held < file.len() {
        match input.read(&mut file[held..])? {
            0 => break,
            more => held += more,
        }
    }
    Ok(held)
}

fn main(rt: HostRuntime) {
    let mut file = [0u8; FILE];
    let mut out = [0u8; MOST_BYTES];
    let Ok(held) = read_input(&mut rt.stdin(), &mut file) else {
        let _ = rt.stderr().write_all(b"unread\n");
        return;
    };
    let n = list(&file[..held], &mut out);
    if rt.stdout().write_all(&out[..n]).is_err() {
        let _ = rt.stderr().write_all(b"unwritten\n");
    }
}
