// Mapping the pages of a span: each is touched by touch's own promise, ascending, and a new page's frame cleared where the span's bytes don't
// cover it. The others will be stored over.
#![tactic(auto)]

ghost use Rattle.std.specs.Prelude.{◌≡◌, ℕ, ◌+◌, ◌%◌, ◌≤◌, ◌<◌};
ghost use Rattle.machine.specs.declared.Touched.TheVariants.{New};
ghost use Rattle.machine.specs.Machine.{span_pages};
ghost use Rattle.memory.specs.Memory.{memory, sizes_of};
ghost use Rattle.spans.specs.Parts.{Span, Frame};
ghost use Rattle.paging.specs.Fits.{Touchable};
ghost use Rattle.mapping.specs.Spans.{around_for, SpanTouched, OneTouched};

use clearing::clear_around;
use machine::{RefusedAfter, Touched};
use memory::{Head, Out};
use paging::touch_checked;
use spans::{page_of, part};

// Clears the frame of a page that was mapped, but for the n bytes from address x on.
fn clear_new(head: Head, answer: Result<Touched, RefusedAfter>, x: usize, n: usize, ram: &mut [u8])
    requires { ((f w : ℕ) → answer ≡ Ok (New f w) → Frame head f ram.old) × (x % (sizes_of head).page + n ≤ (sizes_of head).page) }
    ensures { ram.new ≡ around_for head answer x n ram.old }
{
    let Ok(touched) = answer else {
        return;
    };
    if let Touched::New(frame, _) = touched {
        clear_around(head, frame, x, n, ram);
    }
}

// Touches the page of the n bytes from an address on, all of one page: whether that is refused settles a write of them.
pub fn touch_one(
    head: Head,
    space: u32,
    address: usize,
    n: usize,
    index: &[u64],
    count: &mut [u32],
    table: &mut [u32],
    helper: &mut [u32],
    stack: &mut [u32],
    cache: &mut [u32],
    link: &mut [u32],
    ram: &mut [u8],
) -> Out<Result<Touched, RefusedAfter>>
    requires { Span head space address n ram.old
        × ((b : ℕ) → b < head.pages → Touchable head space b index.now count.old table.old helper.old stack.old cache.old link.old)
        × (span_pages (sizes_of head) address n ≡ 1) }
    ensures { OneTouched space address n
        (memory head index.now count.old table.old helper.old stack.old cache.old
        link.old ram.old)
        result.answer
        (memory result.head index.now count.new table.new helper.new stack.new cache.new
        link.new ram.new) }
{
    let page = page_of(head, address);
    let touched = touch_checked(
        head,
        space,
        page as u32,
        index,
        count,
        table,
        helper,
        stack,
        cache,
        link,
    );
    let answer = touched.answer;
    clear_new(head, answer, address, n, ram);
    touched
}

// Touches the pages of the n bytes from an address on, ascending.
pub fn touch_all(
    head: Head,
    space: u32,
    address: usize,
    n: usize,
    index: &[u64],
    count: &mut [u32],
    table: &mut [u32],
    helper: &mut [u32],
    stack: &mut [u32],
    cache: &mut [u32],
    link: &mut [u32],
    ram: &mut [u8],
) -> Head
    requires { Span head space address n ram.old
        × ((b : ℕ) → b < head.pages → Touchable head space b index.now count.old table.old helper.old stack.old cache.old link.old) }
    ensures { SpanTouched space address n
        (memory head index.now count.old table.old helper.old stack.old cache.old
        link.old ram.old)
        (memory result index.now count.new table.new helper.new stack.new cache.new
        link.new ram.new) }
{
    let mut after = head;
    let mut done = 0;
    // By hand, since no range or chunk of the library steps by parts that differ in size.
    while done < n {
        let x = address + done;
        let size = part(head, x, n - done);
        let page = page_of(head, x);
        let touched = touch_checked(
            after,
            space,
            page as u32,
            index,
            count,
            table,
            helper,
            stack,
            cache,
            link,
        );
        let answer = touched.answer;
        clear_new(head, answer, x, size, ram);
        after = touched.head;
        done += size;
    }
    after
}
