// Reading bytes through the pager. The checks are made once, then pages are looked up by look's own promise, and a
// page's part of the RAM is copied at once, from the frame that the page table has.
#![tactic(auto)]

ghost use Rattle.std.specs.Prelude.{◌≡◌, List, ℕ, ◌<◌, ◌≤◌, length, take, drop};
ghost use Rattle.machine.specs.Machine.{places};
ghost use Rattle.memory.specs.Memory.{memory, sizes_of, place_in};
ghost use Rattle.promise.specs.Filled.{ReadDid};
ghost use Rattle.refusals.specs.Refusals.{refusal};
ghost use Rattle.spans.specs.Parts.{Span, Part};
ghost use Rattle.spans.specs.Spans.{absence_of};
ghost use Rattle.reading.specs.Copies.{CopiedBy};

use checks::{check, span_inside};
use copying::copy;
use lookup::look_checked;
use machine::{Looked, RefusedAfter};
use memory::{ANY, Head, Lengths};
use refusals::Refusal;
use spans::{absence, frame_at, frame_seen, page_of, part, ram_place};

// The bytes from address x on, all of one page, out of the page's frame.
fn copy_frame(head: Head, frame: u32, x: usize, dst: &mut [u8], ram: &[u8])
    requires { ((i : ℕ) × Part head i x (length dst.old) ram.now) × (frame < head.frames) }
    ensures { dst.new ≡ take (length dst.old) (drop (place_in head frame x) ram.now) }
{
    let from = ram_place(head, frame, x);
    let to = from + dst.len();
    copy(&ram[from..to], dst);
}

// The bytes from address x on, all of one page that was found resident, into dst. A table's word that is no frame is passed over.
fn read_part(head: Head, space: u32, x: usize, dst: &mut [u8], table: &[u32], ram: &[u8])
    requires { Part head space x (length dst.old) ram.now × (places (sizes_of head) ≤ length table.now) }
    ensures { CopiedBy head table.now ram.now space x (length dst.old) dst.new }
{
    let frame = frame_at(head, space, x, table);
    if frame < head.frames {
        copy_frame(head, frame, x, dst, ram);
    }
}

// The bytes of a span whose pages are all resident, a page's part at a time.
fn copy_out(head: Head, space: u32, address: usize, buffer: &mut [u8], table: &[u32], ram: &[u8])
    requires { Span head space address (length buffer.old) ram.now × (places (sizes_of head) ≤ length table.now) }
    ensures { CopiedBy head table.now ram.now space address (length buffer.old) buffer.new }
{
    let n = buffer.len();
    let mut done = 0;
    // By hand, since no range or chunk of the library steps by parts that differ in size.
    while done < n {
        let x = address + done;
        let next = done + part(head, x, n - done);
        read_part(head, space, x, &mut buffer[done..next], table, ram);
        done = next;
    }
}

// Why the bytes of a page that was looked up can't be reached, by name alone.
fn reason(found: Result<Looked, RefusedAfter>) -> Result<(), Refusal>
    ensures { refusal result ≡ absence_of found }
{
    absence(found).map_err(|no| no.refusal)
}

// The bytes of a span into the caller's buffer: every page is looked up before the first byte is copied. A span of one page needs no loop.
pub fn read(
    head: Head,
    space: u32,
    address: usize,
    buffer: &mut [u8],
    index: &[u64],
    count: &[u32],
    table: &[u32],
    helper: &[u32],
    stack: &[u32],
    cache: &[u32],
    ram: &[u8],
) -> Result<(), Refusal>
    ensures { (link : List ℕ) →
        ReadDid space address
        (memory head index.now count.now table.now helper.now stack.now cache.now link
        ram.now)
        result buffer.old buffer.new }
{
    let n = buffer.len();
    let lent = Lengths {
        index: index.len(),
        count: count.len(),
        table: table.len(),
        helper: helper.len(),
        stack: stack.len(),
        cache: cache.len(),
        link: ANY,
        ram: ram.len(),
    };
    check(head, lent, space, span_inside(head, address, n))?;
    let first = page_of(head, address);
    let pages = spans::pages(head, address, n);
    if pages == 1 {
        let seen = look_checked(
            head,
            space,
            first as u32,
            index,
            count,
            table,
            helper,
            stack,
            cache,
        );
        let Ok(frame) = frame_seen(seen) else {
            return reason(seen);
        };
        copy_frame(head, frame, address, buffer, ram);
        return Ok(());
    }
    for page in first..first + pages {
        let found = look_checked(
            head,
            space,
            page as u32,
            index,
            count,
            table,
            helper,
            stack,
            cache,
        );
        let Ok(_) = frame_seen(found) else {
            return reason(found);
        };
    }
    copy_out(head, space, address, buffer, table, ram);
    Ok(())
}
