// The lines of an input, one after the other. A read that fails counts as the input's end.
ghost use Rattle.std.specs.Prelude.{ℕ, ◌+◌, ◌<◌, ◌≤◌, ◌≡◌, ◌≢◌, length, slice_index};
ghost use Rattle.std.specs.Prelude.{EachIndex, IfSome, IfOk, MatchOption, replicate};
ghost use Rattle.lines.specs.Input.{IsLine, IsUnread, IsNext};

use std::io::Read;

// How many characters the test programs take in a line.
pub const LONGEST_LINE: usize = 131200;

// Where the bytes that were read and not yet handed out stand in the buffer.
#[derive(Clone, Copy)]
pub struct Unread {
    pub from: usize,
    pub to: usize,
}

#[derive(Clone, Copy)]
pub enum ReadLine {
    // From one place of the buffer up to another, without the line feed.
    Given { start: usize, end: usize },
    // It does not fit the buffer with its line feed, and was passed over.
    TooLong,
    // The input has ended.
    End,
}

#[derive(Clone, Copy)]
pub struct Next {
    pub line: ReadLine,
    pub unread: Unread,
}

// The next line, in a buffer that the caller lends. The last one may lack its line feed. Which it is depends on what is
// read, of which nothing can be promised. Places outside the buffer are moved into it.
pub fn next_line<R: Read>(input: &mut R, buffer: &mut [u8], unread: Unread) -> Next
    ensures kept { length buffer.new ≡ length buffer.old }
    ensures next { IsNext buffer.new result }
{
    let to = unread.to.min(buffer.len());
    let from = unread.from.min(to);
    if let Some(n) = line_feed(buffer, from, to) {
        let end = from + n;
        return Next {
            line: ReadLine::Given { start: from, end },
            unread: Unread { from: end + 1, to },
        };
    }
    buffer.copy_within(from..to, 0);
    read_line(input, buffer, to - from)
}

// The line whose first `held` bytes begin the buffer.
fn read_line<R: Read>(input: &mut R, buffer: &mut [u8], held: usize) -> Next
    requires in_buffer { held ≤ length buffer.old }
    requires no_feed { (k : ℕ) → k < held → slice_index buffer.old k ≢ 10 }
    ensures { IsNext buffer.new result }
{
    let mut to = held;
    while to < buffer.len() {
        let more = read_behind(input, buffer, to);
        if more == 0 {
            return last_line(buffer, to);
        }
        let next = to + more;
        if let Some(n) = line_feed(buffer, to, next) {
            let end = to + n;
            return Next {
                line: ReadLine::Given { start: 0, end },
                unread: Unread {
                    from: end + 1,
                    to: next,
                },
            };
        }
        to = next;
    }
    Next {
        line: ReadLine::TooLong,
        unread: pass_over(input, buffer),
    }
}

// The line that the input's end ends, if it has a byte.
fn last_line(buffer: &[u8], to: usize) -> Next
    requires in_buffer { to < length buffer.now }
    requires no_feed { (k : ℕ) → k < to → slice_index buffer.now k ≢ 10 }
    ensures { IsNext buffer.now result }
{
    let line = if to == 0 {
        ReadLine::End
    } else {
        ReadLine::Given { start: 0, end: to }
    };
    Next {
        line,
        unread: Unread { from: to, to },
    }
}

// Passes over the rest of a line, and answers what was read behind it. Nothing says that the line ends, and a proved
// loop has to: no run uses up so many turns.
fn pass_over<R: Read>(input: &mut R, buffer: &mut [u8]) -> Unread
    ensures { IsUnread buffer.new result }
{
    for _ in 0..u64::MAX {
        let to = read_behind(input, buffer, 0);
        if let Some(n) = line_feed(buffer, 0, to) {
            return Unread { from: n + 1, to };
        }
        if to == 0 {
            break;
        }
    }
    Unread { from: 0, to: 0 }
}

// Reads behind the first bytes, and tells how many.
fn read_behind<R: Read>(input: &mut R, buffer: &mut [u8], to: usize) -> usize
    requires { to ≤ length buffer.old }
    ensures within { to + result ≤ length buffer.new }
    ensures kept { (k : ℕ) → k < to → slice_index buffer.new k ≡ slice_index buffer.old k }
{
    input.read(&mut buffer[to..]).unwrap_or(0)
}

// How many bytes from a place up to another stand before the first line feed.
fn line_feed(buffer: &[u8], from: usize, to: usize) -> Option<usize>
    requires ordered { from ≤ to }
    requires in_buffer { to ≤ length buffer.now }
    ensures within { IfSome result (λ n. from + n < to) }
    ensures there { IfSome result (λ n. slice_index buffer.now (from + n) ≡ 10) }
    ensures none_before { MatchOption result
        ((k : ℕ) → from + k < to → slice_index buffer.now (from + k) ≢ 10)
        (λ n. (k : ℕ) → k < n → slice_index buffer.now (from + k) ≢ 10) }
{
    first_feed(&buffer[from..to])
}

// How many bytes stand before the first line feed.
fn first_feed(bytes: &[u8]) -> Option<usize>
    ensures within { IfSome result (λ n. n < length bytes.now) }
    ensures there { IfSome result (λ n. slice_index bytes.now n ≡ 10) }
    ensures none_before { MatchOption result
        (EachIndex bytes.now (λ k. slice_index bytes.now k ≢ 10))
        (λ n. (k : ℕ) → k < n → slice_index bytes.now k ≢ 10) }
{
    bytes.iter().position(|b| *b == b'\n')
}

// A line does not fit the buffer with its line feed, and was passed over.
#[derive(Clone, Copy, Debug, PartialEq, Eq)]
pub struct TooLong;

// An input, and what was read of it and not yet handed out: the bytes of the buffer from one place up to another.
#[derive(Drop)]
pub struct Lines<R, const N: usize> {
    input: R,
    buffer: [u8; N],
    from: usize,
    to: usize,
    ghost ordered: { from ≤ to },
    ghost in_buffer: { to ≤ N },
}

impl<R: Read, const N: usize> Lines<R, N> {
    // Nothing is read yet.
    pub fn new(input: R) -> Self
        ensures input { result.input ≡ input }
        ensures empty { result.to ≡ 0 }
        ensures start { result.from ≡ 0 }
        ensures zeros { result.buffer ≡ replicate N 0 }
    {
        Lines {
            input,
            buffer: [0; N],
            from: 0,
            to: 0,
        }
    }

    // The next line, as the function of that name reads it, without its line feed.
    pub fn next_line(&mut self) -> Option<Result<&[u8], TooLong>>
        ensures { IfSome result (λ r. IfOk r (λ line. IsLine N line.now)) }
    {
        let unread = Unread {
            from: self.from,
            to: self.to,
        };
        let next = next_line(&mut self.input, self.buffer.as_mut_slice(), unread);
        self.from = next.unread.from;
        self.to = next.unread.to;
        let buffer = self.buffer.as_slice();
        match next.line {
            ReadLine::Given { start, end } => Some(Ok(&buffer[start..end])),
            ReadLine::TooLong => Some(Err(TooLong)),
            ReadLine::End => None,
        }
    }
}
