// What is printed, put together in a buffer that the caller lends.
ghost use Rattle.std.specs.Prelude.{◌≡◌, ◌+◌, ◌*◌, ◌^◌, ◌<◌, ◌≤◌, length};
ghost use Rattle.std.specs.Float.Ieee.{to_unsigned};
ghost use Rattle.trace.specs.Leg.{width};
ghost use Rattle.trace.specs.Refusal.{why_number};
ghost use Rattle.trace.specs.Run.{most_records};
ghost use Rattle.tracelist.specs.Listing.{record_line, end_line, refused_line, listing, filled};
ghost use Rattle.tracelist.specs.Parts.{written, record_bytes, last_bytes, row_lines, records_of, state_lines};

use lines::{COUNT_BYTES, FLOAT_BYTES, end_line, put_count, put_float, put_floats, put_word};
use recipe::read_source;
use std::num::saturating_f64_to_u64;
use trace::{
    DONE, MOST_RECORDS, MOST_ROOM, RECORD_NUMBERS, RECORD_STATUS, RECORD_STEPS, RECORD_T, Refused,
    SOURCE_BYTES, State, start_file, whole,
};

// The most bytes of a record's line: three counts, and the numbers from t up to the steps.
const RECORD_BYTES: usize = 3 * COUNT_BYTES + (RECORD_STEPS - RECORD_T) * FLOAT_BYTES;

// Those of the last line: a word, two counts and a number.
const LAST_BYTES: usize = 4 + 2 * COUNT_BYTES + FLOAT_BYTES;

// Those of a listing.
pub(crate) const MOST_BYTES: usize = MOST_RECORDS * RECORD_BYTES + LAST_BYTES;

// Puts what is printed of a file at the buffer's start, and answers how many bytes that are.
pub(crate) fn list(file: &[u8], out: &mut [u8; MOST_BYTES]) -> usize
    ensures { (result, out.new) ≡ filled out.old (listing file.now) }
{
    let mut results = [0.0; MOST_ROOM];
    match start_file(file, &mut results) {
        Ok(_) => {
            let source = read_source(file).unwrap();
            let recipe = &file[SOURCE_BYTES..];
            let end = whole(recipe, source.ray, source.index, &mut results).unwrap();
            put_trace(out, &results, end)
        }
        Err(e) => put_refused(out, e),
    }
}

fn put_refused(out: &mut [u8], e: Refused) -> usize
    requires { last_bytes ≤ length out.old }
    ensures { (result, out.new) ≡ filled out.old (refused_line (why_number e.why) e.place) }
{
    let mut end = put_word(out, 0, b"refused");
    end = put_count(out, end, u64::from(e.why.number()));
    end = put_count(out, end, e.place as u64);
    end_line(out, end);
    end
}

fn put_trace(out: &mut [u8; MOST_BYTES], results: &[f64; MOST_ROOM], s: State) -> usize
    requires { records_of s.outcome s.number ≤ most_records }
    ensures { (result, out.new) ≡ filled out.old (state_lines results.now s) }
{
    let end = put_records(out, results, records_of(s.outcome, s.number));
    put_end(out, end, s.outcome, s.steps, s.beam.path)
}

// A refusal has a record too.
#[tactic(auto, unfolding(crate::specs::Parts::records_of))]
fn records_of(outcome: u8, hits: usize) -> usize
    requires { records_of outcome hits < 2 ^ 64 }
    ensures { result ≡ records_of outcome hits }
{
    if outcome == DONE { hits } else { hits + 1 }
}

fn put_records(out: &mut [u8], results: &[f64], count: usize) -> usize
    requires { (width * count ≤ length results.now) × (record_bytes * count ≤ length out.old) }
    ensures { (result, out.new) ≡ written out.old 0 (row_lines 0 count results.now) }
{
    let mut end = 0;
    for (number, row) in results.chunks_exact(RECORD_NUMBERS).take(count).enumerate() {
        end = put_record(out, end, number, row);
    }
    end
}

// Buffer and place stand apart, as in `lines`, for the reason that stands at `put_word`.
fn put_record(out: &mut [u8], at: usize, number: usize, row: &[f64]) -> usize
    requires { (length row.now ≡ width) × (at + record_bytes ≤ length out.old) }
    ensures { (result, out.new) ≡ written out.old at (record_line number row.now) }
{
    let mut end = put_count(out, at, number as u64);
    end = put_count(out, end, count(row[RECORD_STATUS]));
    end = put_count(out, end, count(row[RECORD_STEPS]));
    end = put_floats(out, end, &row[RECORD_T..RECORD_STEPS]);
    end_line(out, end);
    end
}

// A slot's count; a status and a number of steps are whole numbers.
fn count(x: f64) -> u64
    ensures { result ≡ to_unsigned 64 x }
{
    saturating_f64_to_u64(x)
}

fn put_end(out: &mut [u8], at: usize, outcome: u8, steps: usize, path: f64) -> usize
    requires { at + last_bytes ≤ length out.old }
    ensures { (result, out.new) ≡ written out.old at (end_line outcome steps path) }
{
    let mut end = put_word(out, at, b"end");
    end = put_count(out, end, u64::from(outcome));
    end = put_count(out, end, steps as u64);
    end = put_float(out, end, path);
    end_line(out, end);
    end
}
