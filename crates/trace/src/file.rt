// A program's file: the record of the ray, then the recipe.
ghost use Rattle.std.specs.Prelude.{◌≡◌};
ghost use Rattle.trace.specs.Run.{told_start};
ghost use Rattle.trace.specs.File.{start_file_of};

use crate::refusal::{Refused, Why};
use crate::run::{MOST_RECORDS, begin, blank_out};
use crate::state::State;
use recipe::{Fault, SOURCE_BYTES, check, read_source};

// Places count from the file's start.
pub fn start_file(file: &[u8], buf: &mut [f64]) -> Result<State, Refused>
    ensures { record { answer = told_start result; buffer = buf.new }
        ≡ start_file_of file.now buf.old }
{
    blank_out(buf);
    let s = read_source(file).ok_or(Fault::Malformed)?;
    match check(&file[SOURCE_BYTES..], MOST_RECORDS, true, 0) {
        Ok(c) => begin(c, s.ray, s.index, buf.len()),
        Err(e) => Err(Refused {
            why: Why::Fault(e.fault),
            place: SOURCE_BYTES + e.place,
        }),
    }
}
