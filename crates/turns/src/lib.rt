// One turn of a list of codes: five numbers are a call, and three its answer.
#![tactic(auto)]

ghost use Rattle.std.specs.Prelude.{◌≡◌, length};
ghost use Rattle.memory.specs.Memory.{memory};
ghost use Rattle.requests.specs.Codes.{numbers_of};
ghost use Rattle.plays.specs.Codes.{code_at};
ghost use Rattle.plays.specs.Plays.{PlayedOne};

use decoding::{Code, decode};
use memory::Head;
use requests::{Answer, encode};
use serving::serve;

// Puts an answer where three numbers stand.
fn put(reply: &mut [u64], a: Answer)
    requires { length reply.old ≡ 3 }
    ensures { reply.new ≡ numbers_of a }
{
    reply.copy_from_slice(&[u64::from(a.kind), a.value, u64::from(a.words)]);
}

// Plays the call that five numbers are, if they are one.
pub fn play_one(
    head: Head,
    code: &[u64; 5],
    reply: &mut [u64],
    bytes: &mut [u8],
    records: &mut [u32],
    index: &mut [u64],
    count: &mut [u32],
    table: &mut [u32],
    helper: &mut [u32],
    stack: &mut [u32],
    cache: &mut [u32],
    link: &mut [u32],
    ram: &mut [u8],
) -> Head
    requires { length reply.old ≡ 3 }
    ensures { PlayedOne (code_at code.now (length bytes.old) (length records.old) 0)
        (memory head index.old count.old table.old helper.old stack.old cache.old
        link.old ram.old)
        bytes.old records.old
        (memory result index.new count.new table.new helper.new stack.new cache.new link.new
        ram.new)
        reply.new bytes.new records.new }
{
    let Some(Code { request, parts }) = decode(code, bytes.len(), records.len()) else {
        reply.fill(0);
        return head;
    };
    let out = serve(
        head,
        request,
        &mut bytes[parts.from..parts.to],
        &mut records[parts.first..parts.last],
        index,
        count,
        table,
        helper,
        stack,
        cache,
        link,
        ram,
    );
    put(reply, encode(out.answer, parts.to - parts.from));
    out.head
}
