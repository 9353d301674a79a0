// Lines of words: read from an input, taken apart, put together, and written to an output. No function asks anything of
// its caller. A buffer's length is the limit of what it is for.
#![tactic(auto)]

mod digits;
mod input;
mod output;
mod words;

pub use digits::{digit_value, read_count, read_float};
pub use input::{LONGEST_LINE, Lines, Next, ReadLine, TooLong, Unread, next_line};
pub use output::{
    COUNT_BYTES, FLOAT_BYTES, bits_of, end_line, put_count, put_float, put_floats, put_word,
    write_line,
};
pub use words::{Words, part};
