// A session: one line in, its answer out. Who reads lines and writes answers stands on it.
#![tactic(auto)]

ghost use Rattle.memory.specs.Memory.{memory};
ghost use Rattle.lines.specs.Promise.{CallAnswered, AnswersLine};

use ahead::{fill, is_beyond};
use memory::Head;
pub use parsing::LONGEST_MAP;
use parsing::parse;
use printing::{say, say_refused};
use requests::Request;
use serving::serve;
use texts::say_bad_line;

// The head after a line, and where the line's answer ends.
#[derive(Clone, Copy)]
pub struct Answered {
    pub head: Head,
    pub end: usize,
}

// Makes the call that is requested and says its answer.
fn answer_call(
    head: Head,
    request: Request,
    out: &mut [u8],
    at: usize,
    bytes: &mut [u8],
    records: &mut [u32],
    index: &mut [u64],
    count: &mut [u32],
    table: &mut [u32],
    helper: &mut [u32],
    stack: &mut [u32],
    cache: &mut [u32],
    link: &mut [u32],
    ram: &mut [u8],
) -> Answered
    ensures { CallAnswered request
        (memory head index.old count.old table.old helper.old stack.old cache.old
        link.old ram.old)
        bytes.old records.old at out.old result.end
        (memory result.head index.new count.new table.new helper.new stack.new cache.new
        link.new ram.new)
        bytes.new records.new out.new }
{
    let served = serve(
        head, request, bytes, records, index, count, table, helper, stack, cache, link, ram,
    );
    let end = say(out, at, served.answer, bytes, records);
    Answered {
        head: served.head,
        end,
    }
}

// Answers a line, after the first `at` bytes of `out`. With LONGEST_MAP bytes in the buffer and 3,072 numbers in the records every line has its
// answer.
pub fn answer_line(
    head: Head,
    line: &[u8],
    out: &mut [u8],
    at: usize,
    buffer: &mut [u8],
    records: &mut [u32],
    index: &mut [u64],
    count: &mut [u32],
    table: &mut [u32],
    helper: &mut [u32],
    stack: &mut [u32],
    cache: &mut [u32],
    link: &mut [u32],
    ram: &mut [u8],
) -> Answered
    ensures { AnswersLine line.now
        (memory head index.old count.old table.old helper.old stack.old cache.old
        link.old ram.old)
        at out.old buffer.old records.old
        result.end
        (memory result.head index.new count.new table.new helper.new stack.new cache.new
        link.new ram.new)
        out.new buffer.new records.new }
{
    let Some((request, n)) = parse(line) else {
        return Answered {
            head,
            end: say_bad_line(out, at),
        };
    };
    if is_beyond(request) {
        return Answered {
            head,
            end: say_refused(out, at, 1),
        };
    }
    if buffer.len() < n {
        return Answered { head, end: at };
    }
    fill(request, line, n, buffer);
    answer_call(
        head,
        request,
        out,
        at,
        &mut buffer[..n],
        records,
        index,
        count,
        table,
        helper,
        stack,
        cache,
        link,
        ram,
    )
}
