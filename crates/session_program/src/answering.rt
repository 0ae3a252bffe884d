// Lines answered on the session's memory, and their answers written.
use crate::input::line_at;
use crate::{BYTES, FRAMES, INDEX, OUT, PLACES, RAM, RECORDS};
use memory::Head;
use session::answer_line;
use std::io::{ErrorKind, Print};

// Whether answers can be written: they can, they were lost, or their reader has enough.
#[derive(Clone, Copy, PartialEq, Eq)]
pub enum Output {
    Open,
    Lost,
    Closed,
}

// The head, where the line that is not whole yet begins, whether more of it came than is kept, and what became of the answers.
#[derive(Drop)]
pub struct Progress {
    pub head: Head,
    pub from: usize,
    pub is_long: bool,
    pub output: Output,
}

// Writes the answers before `at`. Whoever plays a script hears of it if they are lost; a pipe's reader that is gone wants no more of them.
fn write(rt: &(impl Print + Eprint), out: &[u8], at: usize) -> Output {
    if out.len() < at {
        return Output::Lost;
    }
    let Err(error) = rt.write_all(&out[..at]) else {
        return Output::Open;
    };
    if error.kind() == ErrorKind::BrokenPipe {
        return Output::Closed;
    }
    let _ = rt.eprintln("session_program: its output could not be written");
    Output::Lost
}

// Ends the line of an answer that ends before `at`; answers where the next one begins.
fn end_line(out: &mut [u8], at: usize) -> usize {
    if out.len() <= at {
        return at;
    }
    out[at] = b'\n';
    at + 1
}

// Whether answers are to be written, as no other may fit after them.
fn is_full(at: usize) -> bool {
    65_535 <= at
}

// Answers the lines that are whole among the first n bytes; the last line of all is whole without a line feed, too.
pub(crate) fn answer_lines(
    rt: &(impl Print + Eprint),
    head: Head,
    input: &[u8],
    n: usize,
    is_last: bool,
    is_long: bool,
    out: &mut [u8; OUT],
    buffer: &mut [u8; BYTES],
    records: &mut [u32; RECORDS],
    index: &mut [u64; INDEX],
    count: &mut [u32; PLACES],
    table: &mut [u32; PLACES],
    helper: &mut [u32; PLACES],
    stack: &mut [u32; PLACES],
    cache: &mut [u32; PLACES],
    link: &mut [u32; FRAMES],
    ram: &mut [u8; RAM],
) -> Progress {
    let mut next = head;
    let mut is_long = is_long;
    let mut from = 0;
    let mut at = 0;
    // A `while`: a step is a line.
    while from < n {
        let line = line_at(input, from, n, is_last, is_long);
        if !line.is_whole {
            break;
        }
        let first = line.first;
        let end = line.end;
        let said = answer_line(
            next,
            &input[first..end],
            out,
            at,
            buffer,
            records,
            index,
            count,
            table,
            helper,
            stack,
            cache,
            link,
            ram,
        );
        let after = said.head;
        next = after;
        at = end_line(out, said.end);
        is_long = false;
        from = line.next;
        if is_full(at) {
            let output = write(rt, out, at);
            if output != Output::Open {
                return Progress {
                    head: next,
                    from,
                    is_long,
                    output,
                };
            }
            at = 0;
        }
    }
    let output = write(rt, out, at);
    Progress {
        head: next,
        from,
        is_long,
        output,
    }
}
