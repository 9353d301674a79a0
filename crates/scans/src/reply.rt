// What is printed. usize and u64 are one size here, and std has no `From` between them, so that places are cast.
use lines::{COUNT_BYTES, FLOAT_BYTES, bits_of, put_count, put_floats, put_word, write_line};
use std::io::{self, Write};
use surfaces::ACCEPTED;
use trace::{RECORD_NUMBERS, Refused, State, record_told};

// The most bytes of each line: its word and a space, then counts and numbers.
const ANSWER_BYTES: usize = 9 + 2 * COUNT_BYTES;

const STATE_BYTES: usize = 6 + 5 * COUNT_BYTES + 9 * FLOAT_BYTES;

const RECORD_BYTES: usize = 7 + COUNT_BYTES + RECORD_NUMBERS * FLOAT_BYTES;

const TAIL_BYTES: usize = 5 + (RECORD_NUMBERS - 1) * FLOAT_BYTES;

pub(crate) fn print_unreadable<W: Write>(output: &mut W) -> io::Result<()> {
    let mut line = [0u8; 2];
    let end = put_word(&mut line, 0, b"?");
    write_line(output, &mut line, end)
}

pub(crate) fn print_reply<W: Write>(
    output: &mut W,
    what: &[u8],
    answer: Result<State, Refused>,
    state: State,
    results: &[f64],
) -> io::Result<()> {
    print_answer(output, what, answer.err())?;
    print_state(output, state)?;
    print_results(output, results)
}

pub(crate) fn print_reach<W: Write>(
    output: &mut W,
    surface: usize,
    answer: Result<[f64; RECORD_NUMBERS], Refused>,
) -> io::Result<()> {
    print_answer(output, b"reach", answer.err())?;
    print_record(output, surface, &record_told(answer))
}

// 1, or the refusal and its place, by numbers, which are what is printed.
fn print_answer<W: Write>(output: &mut W, what: &[u8], refused: Option<Refused>) -> io::Result<()> {
    let (number, place) = match refused {
        Some(e) => (e.why.number(), e.place),
        None => (ACCEPTED, 0),
    };
    let mut line = [0u8; ANSWER_BYTES];
    let mut end = put_word(&mut line, 0, what);
    end = put_count(&mut line, end, u64::from(number));
    end = put_count(&mut line, end, place as u64);
    write_line(output, &mut line, end)
}

fn print_state<W: Write>(output: &mut W, s: State) -> io::Result<()> {
    let b = s.beam;
    let o = b.ray.origin;
    let d = b.ray.direction;
    let values = [s.t, o.x, o.y, o.z, d.x, d.y, d.z, b.index, b.path];
    let mut line = [0u8; STATE_BYTES];
    let mut end = put_word(&mut line, 0, b"state");
    end = put_count(&mut line, end, s.number as u64);
    end = put_count(&mut line, end, s.place as u64);
    end = put_count(&mut line, end, u64::from(s.passes));
    end = put_floats(&mut line, end, &values);
    end = put_count(&mut line, end, s.steps as u64);
    end = put_count(&mut line, end, u64::from(s.outcome));
    write_line(output, &mut line, end)
}

fn print_results<W: Write>(output: &mut W, results: &[f64]) -> io::Result<()> {
    let (rows, tail) = results.as_chunks::<RECORD_NUMBERS>();
    for (number, row) in rows.iter().enumerate() {
        print_record(output, number, row)?;
    }
    print_tail(output, tail)
}

fn print_record<W: Write>(output: &mut W, number: usize, row: &[f64]) -> io::Result<()> {
    if is_blank(row) {
        return Ok(());
    }
    let mut line = [0u8; RECORD_BYTES];
    let mut end = put_word(&mut line, 0, b"record");
    end = put_count(&mut line, end, number as u64);
    end = put_floats(&mut line, end, row);
    write_line(output, &mut line, end)
}

// Apart from a record's line, which has a number more: one function for both would take a flag.
fn print_tail<W: Write>(output: &mut W, rest: &[f64]) -> io::Result<()> {
    if is_blank(rest) {
        return Ok(());
    }
    let mut line = [0u8; TAIL_BYTES];
    let mut end = put_word(&mut line, 0, b"tail");
    end = put_floats(&mut line, end, rest);
    write_line(output, &mut line, end)
}

// Whether each pattern is +0.0's.
fn is_blank(values: &[f64]) -> bool {
    values.iter().all(|&x| bits_of(x) == 0)
}
