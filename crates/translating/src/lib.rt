// The place in RAM of an address: its page's frame, by the page's look, and the offset.
#![tactic(auto)]

ghost use Rattle.std.specs.Prelude.{List, ℕ};
ghost use Rattle.machine.specs.Machine as machine;
ghost use Rattle.machine.specs.Answers.{translated_says};
ghost use Rattle.memory.specs.Memory.{memory};
ghost use Rattle.promise.specs.Did.{Did};

use checks::{address_inside, check};
use lookup::look_checked;
use memory::{ANY, Head, Lengths};
use refusals::Refusal;
use spans::{frame_seen, page_of, ram_place};

// The place in RAM of an address.
pub fn translate(
    head: Head,
    space: u32,
    address: usize,
    index: &[u64],
    count: &[u32],
    table: &[u32],
    helper: &[u32],
    stack: &[u32],
    cache: &[u32],
) -> Result<usize, Refusal>
    ensures { (link ram : List ℕ) →
        Did (machine.translate space address)
        (memory head index.now count.now table.now helper.now stack.now cache.now link ram)
        (translated_says result)
        (memory head index.now count.now table.now helper.now stack.now cache.now link
        ram) }
{
    let lent = Lengths {
        index: index.len(),
        count: count.len(),
        table: table.len(),
        helper: helper.len(),
        stack: stack.len(),
        cache: cache.len(),
        link: ANY,
        ram: ANY,
    };
    check(head, lent, space, address_inside(head, address))?;
    let page = page_of(head, address);
    let found = look_checked(
        head,
        space,
        page as u32,
        index,
        count,
        table,
        helper,
        stack,
        cache,
    );
    let frame = frame_seen(found)?;
    Ok(ram_place(head, frame, address))
}
