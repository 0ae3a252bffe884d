// Touching a page: the checks, what they let through, and a new page's frame cleared.
#![tactic(auto)]

ghost use Rattle.std.specs.Prelude.{◌≡◌, ℕ};
ghost use Rattle.machine.specs.Machine as machine;
ghost use Rattle.machine.specs.declared.Touched.TheVariants.{New};
ghost use Rattle.machine.specs.Answers.{touched_says};
ghost use Rattle.memory.specs.Memory.{memory};
ghost use Rattle.promise.specs.Did.{Did};
ghost use Rattle.spans.specs.Parts.{Frame};
ghost use Rattle.paging.specs.Models.{cleared_for};

use checks::check;
use clearing::clear_frame;
use lookup::{Sight, see};
use machine::{RefusedAfter, Touched};
use memory::{Head, Lengths, Out};
use paging::touch_seen;

// Clears the frame of a page that was mapped.
fn clear_new(head: Head, answer: Result<Touched, RefusedAfter>, ram: &mut [u8])
    requires { (f w : ℕ) → answer ≡ Ok (New f w) → Frame head f ram.old }
    ensures { ram.new ≡ cleared_for head answer ram.old }
{
    let Ok(touched) = answer else {
        return;
    };
    if let Touched::New(frame, _) = touched {
        clear_frame(head, frame, ram);
    }
}

// The page's frame, mapped if need be; a new page reads as zeros. It looks for itself: through `touch_checked` the compiler would hand the head
// over in memory.
pub fn touch(
    head: Head,
    space: u32,
    page: u32,
    index: &[u64],
    count: &mut [u32],
    table: &mut [u32],
    helper: &mut [u32],
    stack: &mut [u32],
    cache: &mut [u32],
    link: &mut [u32],
    ram: &mut [u8],
) -> Out<Result<Touched, RefusedAfter>>
    ensures { Did (machine.touch space page)
        (memory head index.now count.old table.old helper.old stack.old cache.old
        link.old ram.old)
        (touched_says result.answer)
        (memory result.head index.now count.new table.new helper.new stack.new cache.new
        link.new ram.new) }
{
    let lent = Lengths {
        index: index.len(),
        count: count.len(),
        table: table.len(),
        helper: helper.len(),
        stack: stack.len(),
        cache: cache.len(),
        link: link.len(),
        ram: ram.len(),
    };
    if let Err(no) = check(head, lent, space, page < head.pages) {
        return Out {
            head,
            answer: Err(RefusedAfter::from(no)),
        };
    }
    let seen = see(head, space, page, index, count, table, helper, stack, cache);
    // the short way of a page that is there, with nothing to plan, to clear or to store
    if let Sight::Mapped(frame) = seen {
        return Out {
            head,
            answer: Ok(Touched::Old(frame)),
        };
    }
    let out = touch_seen(
        head, space, page, seen, count, table, helper, stack, cache, link,
    );
    let answer = out.answer;
    clear_new(head, answer, ram);
    out
}
