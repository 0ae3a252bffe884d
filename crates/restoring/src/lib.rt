// Restoring a state from its map file, in memory just started with the file's sizes.
#![tactic(auto)]

ghost use Rattle.machine.specs.Machine.{State};
ghost use Rattle.memory.specs.Memory.{memory};
ghost use Rattle.promise.specs.Holds.{Holds};
ghost use Rattle.promise.specs.Within.{Within};
ghost use Rattle.restoring.specs.Founded.{Founded, AllLinked};

use checks::wide;
use filling::fill_all;
use founding::{lay_all, mark_all};
use memory::Head;

// The head of the sizes of h, with every frame linked, from frame `first` on.
fn linked(h: Head, first: u32) -> Head
    ensures { AllLinked h first result }
{
    Head {
        first,
        many: h.frames,
        fresh: h.frames,
        ..h
    }
}

// Marks the file's starts, links its frames in its order and maps its pages, one after another; past the sizes nothing changes.
pub fn restore(
    bytes: &[u8],
    head: Head,
    index: &mut [u64],
    count: &mut [u32],
    table: &mut [u32],
    helper: &mut [u32],
    stack: &mut [u32],
    cache: &mut [u32],
    link: &mut [u32],
) -> Head
    requires { (m : State)
        × Founded m bytes.now (memory head index.old count.old table.old helper.old stack.old cache.old link.old m.ram) }
    ensures { (m : State) →
        let k = memory head index.old count.old table.old helper.old stack.old cache.old
        link.old m.ram in
        let k' = memory result index.new count.new table.new helper.new stack.new cache.new
        link.new m.ram in
        Founded m bytes.now k → Holds m k' × Within m.sizes k k' }
{
    let spaces = wide(head.spaces);
    let pages = wide(head.pages);
    mark_all(bytes, spaces, pages, index);
    let first = lay_all(bytes, spaces, link).map_or(0, |laid| laid.first);
    let next = linked(head, first);
    fill_all(
        bytes, spaces, pages, next, count, table, helper, stack, cache, link,
    )
}
