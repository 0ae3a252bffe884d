// Addresses and spans of a head whose sizes are within their limits: pages, parts of pages, places in RAM.
#![tactic(auto)]

ghost use Rattle.std.specs.Prelude.{◌≡◌, true, ◌+◌, ◌-◌, ◌/◌, ◌%◌, ◌<◌, ◌≤◌, min, length};
ghost use Rattle.machine.specs.Machine.{sizes_ok, space_bytes, places, page_of_address, span_pages};
ghost use Rattle.machine.specs.Claims.{Address};
ghost use Rattle.memory.specs.Memory.{at, sizes_of, place_in};
ghost use Rattle.spans.specs.Spans.{frame_seen, Absence};

use checks::{place, wide};
use machine::{Looked, RefusedAfter};
use memory::Head;
use refusals::Refusal;

// The frame of a page that was looked up, or why its bytes can't be reached.
pub fn frame_seen(found: Result<Looked, RefusedAfter>) -> Result<u32, Refusal>
    ensures { result ≡ frame_seen found }
{
    match found {
        Ok(Looked::Resident(frame)) => Ok(frame),
        Ok(Looked::Absent(_)) => Err(Refusal::PageAbsent),
        Err(no) => Err(no.refusal),
    }
}

// Why the bytes of a page that was looked up can't be reached, by name or as whatever a refusal makes; nothing is in the way of a resident one's.
pub fn absence<R: From<Refusal>>(found: Result<Looked, R>) -> Result<(), R>
    ensures { Absence R.from_gives found result }
{
    match found {
        Ok(Looked::Resident(_)) => Ok(()),
        Ok(Looked::Absent(_)) => Err(R::from(Refusal::PageAbsent)),
        Err(no) => Err(no),
    }
}

// The page of an address of a space.
pub fn page_of(h: Head, x: usize) -> usize
    requires { sizes_ok (sizes_of h) ≡ true }
    ensures { result ≡ x / (sizes_of h).page }
{
    let size = h.page;
    size.page(x)
}

// The frame that the page table has for the page of address x, resident or not.
pub fn frame_at(h: Head, space: u32, x: usize, table: &[u32]) -> u32
    requires { (sizes_ok (sizes_of h) ≡ true) × Address (sizes_of h) space x × (places (sizes_of h) ≤ length table.now) }
    ensures { result ≡ at table.now (page_of_address (sizes_of h) space x) }
{
    let page = page_of(h, x);
    let p = place(h, space, page as u32);
    table[p]
}

// How many bytes a page has.
pub fn page_bytes(h: Head) -> usize
    requires { sizes_ok (sizes_of h) ≡ true }
    ensures { result ≡ (sizes_of h).page }
{
    let size = h.page;
    1usize << size.shift
}

// How many bytes of the page of address x lie from x on, at most `left`.
pub fn part(h: Head, x: usize, left: usize) -> usize
    requires { sizes_ok (sizes_of h) ≡ true }
    ensures { result ≡ min ((sizes_of h).page - x % (sizes_of h).page) left }
{
    let size = h.page;
    let whole = page_bytes(h) - size.offset(x);
    if left < whole {
        return left;
    }
    whole
}

// How many pages the span of n bytes from an address on has.
pub fn pages(h: Head, address: usize, n: usize) -> usize
    requires { (sizes_ok (sizes_of h) ≡ true) × (address + n ≤ space_bytes (sizes_of h)) }
    ensures { result ≡ span_pages (sizes_of h) address n }
{
    if n == 0 {
        return 0;
    }
    page_of(h, address + (n - 1)) - page_of(h, address) + 1
}

// Where in RAM address x is, if its page holds the frame.
pub fn ram_place(h: Head, frame: u32, x: usize) -> usize
    requires { sizes_ok (sizes_of h) ≡ true }
    ensures { result ≡ place_in h frame x }
{
    let size = h.page;
    (wide(frame) << size.shift) + size.offset(x)
}
