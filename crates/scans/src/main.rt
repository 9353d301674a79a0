// One station, driven by the script on standard input: a line gives it a recipe, room for results or a state, or has it
// start a trace or continue one, or asks for one surface's record. To a start and a continuation it replies with the
// answer, the state, and what stands in the results, to a question with the answer and the record. A line that cannot
// be read is answered `?`.
#![tactic(auto)]

mod command;
mod operands;
mod reply;
mod station;

use command::{Bytes, LONGEST, read_command};
use lines::{LONGEST_LINE, Lines};
use reply::print_unreadable;
use station::Station;
use std::io::{Read, Result, Write};

// The longest line that is read, and its line feed.
const BUFFER: usize = LONGEST_LINE + 1;

// Nothing says that the input ends, and a proved loop has to: no run uses up so many turns.
fn obey_all<R: Read, W: Write>(
    lines: &mut Lines<R, BUFFER>,
    output: &mut W,
    given: &mut Bytes,
) -> Result<()> {
    let mut station = Station::new();
    for _ in 0..u64::MAX {
        let Some(line) = lines.next_line() else {
            break;
        };
        match line.ok().and_then(|line| read_command(line, given)) {
            Some(command) => station.obey(output, command, given)?,
            None => print_unreadable(output)?,
        }
    }
    Ok(())
}

fn main(rt: HostRuntime) {
    let mut lines = Lines::new(rt.stdin());
    let mut given = [0u8; LONGEST];
    // a writing that fails ends the run, as the input's end does
    let _ = obey_all(&mut lines, &mut rt.stdout(), &mut given);
}
