// Plays a lent list of encoded calls on lent memory: five numbers a call, three an answer.
#![tactic(auto)]

ghost use Rattle.std.specs.Prelude.{◌≡◌, min, ◌/◌, length};
ghost use Rattle.memory.specs.Memory.{memory};
ghost use Rattle.plays.specs.Promise.{Plays};

use memory::Head;
use turns::play_one;

// Plays as many calls as there are codes and room for replies.
pub fn play(
    head: Head,
    codes: &[u64],
    replies: &mut [u64],
    bytes: &mut [u8],
    records: &mut [u32],
    index: &mut [u64],
    count: &mut [u32],
    table: &mut [u32],
    helper: &mut [u32],
    stack: &mut [u32],
    cache: &mut [u32],
    link: &mut [u32],
    ram: &mut [u8],
) -> Head
    ensures { Plays codes.now (min (length codes.now / 5) (length replies.old / 3))
        (memory head index.old count.old table.old helper.old stack.old cache.old
        link.old ram.old)
        (record { replies = replies.old; bytes = bytes.old; records = records.old })
        (memory result index.new count.new table.new helper.new stack.new cache.new link.new
        ram.new)
        (record { replies = replies.new; bytes = bytes.new; records = records.new }) }
{
    let n = (codes.len() / 5).min(replies.len() / 3);
    let (whole, _) = codes.as_chunks::<5>();
    let mut next = head;
    for (j, code) in whole[..n].iter().enumerate() {
        // by place: of what is written through `chunks_exact_mut` a proof knows the length alone
        let at = 3 * j;
        next = play_one(
            next,
            code,
            &mut replies[at..at + 3],
            bytes,
            records,
            index,
            count,
            table,
            helper,
            stack,
            cache,
            link,
            ram,
        );
    }
    next
}
