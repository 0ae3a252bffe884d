// A write into one page that isn't resident: the page is touched, its frame cleared around the bytes, and they are stored. Whether the touch is
// refused settles the write, so there is no survey.
#![tactic(auto)]

ghost use Rattle.std.specs.Prelude.{◌≡◌, length};
ghost use Rattle.machine.specs.Machine as machine;
ghost use Rattle.machine.specs.Machine.{asked, span_pages};
ghost use Rattle.machine.specs.Answers.{done_says};
ghost use Rattle.memory.specs.Memory.{memory, sizes_of, lengths};
ghost use Rattle.promise.specs.Did.{Did};
ghost use Rattle.faulting.specs.Writing.{refused_with};

use mapping::touch_one;
use memory::{Head, Out};
use refusals::Refusal;
use storing::store;

// Stores bytes, all of one page, by way of the page's touch.
pub fn write_one(
    head: Head,
    space: u32,
    address: usize,
    bytes: &[u8],
    index: &[u64],
    count: &mut [u32],
    table: &mut [u32],
    helper: &mut [u32],
    stack: &mut [u32],
    cache: &mut [u32],
    link: &mut [u32],
    ram: &mut [u8],
) -> Out<Result<(), Refusal>>
    requires { (asked (sizes_of head) (machine.write space address bytes.now
        (lengths (memory head index.now count.old table.old helper.old stack.old cache.old link.old ram.old))) ≡ 0)
        × (span_pages (sizes_of head) address (length bytes.now) ≡ 1) }
    ensures { Did (machine.write space address bytes.now)
        (memory head index.now count.old table.old helper.old stack.old cache.old
        link.old ram.old)
        (done_says result.answer)
        (memory result.head index.now count.new table.new helper.new stack.new cache.new
        link.new ram.new) }
{
    let touched = touch_one(
        head,
        space,
        address,
        bytes.len(),
        index,
        count,
        table,
        helper,
        stack,
        cache,
        link,
        ram,
    );
    let next = touched.head;
    if let Err(no) = touched.answer {
        return Out {
            head: next,
            answer: Err(no.refusal),
        };
    }
    store(next, space, address, bytes, table, ram);
    Out {
        head: next,
        answer: Ok(()),
    }
}
