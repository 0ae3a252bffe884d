// A write over any number of pages: regions and pool are settled before the first touch, then every page is touched and new frames cleared around
// the span, then the bytes are stored. A span whose pages are all resident goes straight to the stores.
#![tactic(auto)]

ghost use Rattle.machine.specs.Machine as machine;
ghost use Rattle.machine.specs.Answers.{done_says};
ghost use Rattle.memory.specs.Memory.{memory};
ghost use Rattle.promise.specs.Did.{Did};
ghost use Rattle.faulting.specs.Written.{Spanned};

use mapping::touch_all;
use memory::{Head, Out};
use refusals::Refusal;
use storing::store;
use surveying::{all_resident, count_absent, settle};

// Stores bytes, of so many pages from `first` on, all or nothing.
pub fn write_span(
    head: Head,
    space: u32,
    address: usize,
    bytes: &[u8],
    first: usize,
    pages: usize,
    index: &[u64],
    count: &mut [u32],
    table: &mut [u32],
    helper: &mut [u32],
    stack: &mut [u32],
    cache: &mut [u32],
    link: &mut [u32],
    ram: &mut [u8],
) -> Out<Result<(), Refusal>>
    requires { Spanned (memory head index.now count.old table.old helper.old stack.old cache.old link.old ram.old) space address bytes.now
        first pages }
    ensures { Did (machine.write space address bytes.now)
        (memory head index.now count.old table.old helper.old stack.old cache.old
        link.old ram.old)
        (done_says result.answer)
        (memory result.head index.now count.new table.new helper.new stack.new cache.new
        link.new ram.new) }
{
    let end = first + pages;
    if all_resident(head, space, first, end, count, table, helper, stack, cache) {
        store(head, space, address, bytes, table, ram);
        return Out {
            head,
            answer: Ok(()),
        };
    }
    let absent = count_absent(head, space, first, end, count, table, helper, stack, cache);
    let short = settle(
        head, space, first, absent, index, count, table, helper, stack, cache,
    );
    if let Err(no) = short {
        return Out {
            head,
            answer: Err(no),
        };
    }
    let next = touch_all(
        head,
        space,
        address,
        bytes.len(),
        index,
        count,
        table,
        helper,
        stack,
        cache,
        link,
        ram,
    );
    store(next, space, address, bytes, table, ram);
    Out {
        head: next,
        answer: Ok(()),
    }
}
