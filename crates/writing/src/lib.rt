// Writing bytes through the pager: the checks, then one page or several. The one page of a span, if it is resident, goes straight to the store.
#![tactic(auto)]

ghost use Rattle.machine.specs.Machine as machine;
ghost use Rattle.machine.specs.Answers.{done_says};
ghost use Rattle.memory.specs.Memory.{memory};
ghost use Rattle.promise.specs.Did.{Did};

use checks::{check, span_inside};
use faulting::write_one;
use lookup::frame_of;
use memory::{Head, Lengths, Out};
use refusals::Refusal;
use spanning::write_span;
use spans::page_of;
use storing::store_frame;

// Stores bytes at a span's addresses, mapping pages that are absent: all or nothing.
pub fn write(
    head: Head,
    space: u32,
    address: usize,
    bytes: &[u8],
    index: &[u64],
    count: &mut [u32],
    table: &mut [u32],
    helper: &mut [u32],
    stack: &mut [u32],
    cache: &mut [u32],
    link: &mut [u32],
    ram: &mut [u8],
) -> Out<Result<(), Refusal>>
    ensures { Did (machine.write space address bytes.now)
        (memory head index.now count.old table.old helper.old stack.old cache.old
        link.old ram.old)
        (done_says result.answer)
        (memory result.head index.now count.new table.new helper.new stack.new cache.new
        link.new ram.new) }
{
    let n = bytes.len();
    let lent = Lengths {
        index: index.len(),
        count: count.len(),
        table: table.len(),
        helper: helper.len(),
        stack: stack.len(),
        cache: cache.len(),
        link: link.len(),
        ram: ram.len(),
    };
    if let Err(no) = check(head, lent, space, span_inside(head, address, n)) {
        return Out {
            head,
            answer: Err(no),
        };
    }
    let first = page_of(head, address);
    let pages = spans::pages(head, address, n);
    if pages == 1 {
        let frame = frame_of(
            head,
            space,
            first as u32,
            count,
            table,
            helper,
            stack,
            cache,
        );
        if frame < head.frames {
            store_frame(head, frame, address, bytes, ram);
            return Out {
                head,
                answer: Ok(()),
            };
        }
        return write_one(
            head, space, address, bytes, index, count, table, helper, stack, cache, link, ram,
        );
    }
    write_span(
        head, space, address, bytes, first, pages, index, count, table, helper, stack, cache, link,
        ram,
    )
}
