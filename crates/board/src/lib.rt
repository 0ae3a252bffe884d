// The board's entrance: the pager's calls with the head lent and changed in place.
// Only a start and the reading of a map that is accepted store the whole head. The other calls leave the sizes, a release and a hand-back the first
// frame never used too, so they store no more than may change: the compiler can't tell head from tables, and would store all.
#![tactic(auto)]

ghost use Rattle.std.specs.Prelude.{List, ℕ};
ghost use Rattle.machine.specs.Machine as machine;
ghost use Rattle.machine.specs.Answers.{done_says, free_says, touched_says, looked_says, released_says, given_back_says, translated_says};
ghost use Rattle.memory.specs.Memory.{memory};
ghost use Rattle.promise.specs.Did.{Did};
ghost use Rattle.promise.specs.Filled.{ReadDid, RecordsDid, MapDid};
ghost use Rattle.machine.specs.Machine.{sizes};

use listing::{last_region, survey};
use machine::{Looked, RefusedAfter, Region, Touched};
use memory::Head;
use refusals::Refusal;

// Sets the sizes: no starts, every frame in the pool. Five tables and the RAM may hold anything.
pub fn start(
    head: &mut Head,
    spaces: u32,
    pages: u32,
    frames: u32,
    page: u32,
    index: &mut [u64],
    count: &mut [u32],
) -> Result<(), Refusal>
    ensures { (table helper stack cache link ram : List ℕ) →
        Did (machine.start (sizes spaces pages frames page))
        (memory head.old index.old count.old table helper stack cache link ram)
        (done_says result)
        (memory head.new index.new count.new table helper stack cache link ram) }
{
    let out = starting::start(*head, spaces, pages, frames, page, index, count);
    *head = out.head;
    out.answer
}

// Adds a start.
pub fn mark(
    head: &Head,
    space: u32,
    page: u32,
    index: &mut [u64],
    count: &[u32],
) -> Result<(), Refusal>
    ensures { (table helper stack cache link ram : List ℕ) →
        Did (machine.mark space page)
        (memory head.now index.old count.now table helper stack cache link ram)
        (done_says result)
        (memory head.now index.new count.now table helper stack cache link ram) }
{
    marking::mark(*head, space, page, index, count)
}

// Removes a start whose region has no resident page.
pub fn drop(
    head: &Head,
    space: u32,
    page: u32,
    index: &mut [u64],
    count: &[u32],
) -> Result<(), Refusal>
    ensures { (table helper stack cache link ram : List ℕ) →
        Did (machine.drop space page)
        (memory head.now index.old count.now table helper stack cache link ram)
        (done_says result)
        (memory head.now index.new count.now table helper stack cache link ram) }
{
    marking::drop(*head, space, page, index, count)
}

// The page's frame, mapped if need be; a new page reads as zeros.
pub fn touch(
    head: &mut Head,
    space: u32,
    page: u32,
    index: &[u64],
    count: &mut [u32],
    table: &mut [u32],
    helper: &mut [u32],
    stack: &mut [u32],
    cache: &mut [u32],
    link: &mut [u32],
    ram: &mut [u8],
) -> Result<Touched, RefusedAfter>
    ensures { Did (machine.touch space page)
        (memory head.old index.now count.old table.old helper.old stack.old
        cache.old link.old ram.old)
        (touched_says result)
        (memory head.new index.now count.new table.new helper.new stack.new cache.new
        link.new ram.new) }
{
    let touched = touching::touch(
        *head, space, page, index, count, table, helper, stack, cache, link, ram,
    );
    // only a page that was mapped took a frame; not by `?`, which makes a resident touch 4 hundredths dearer
    let Ok(answer) = touched.answer else {
        return touched.answer;
    };
    if let Touched::New(_, _) = answer {
        head.first = touched.head.first;
        head.many = touched.head.many;
        head.fresh = touched.head.fresh;
    }
    touched.answer
}

// Whether a page is resident, and its frame. Changes nothing.
pub fn look(
    head: &Head,
    space: u32,
    page: u32,
    index: &[u64],
    count: &[u32],
    table: &[u32],
    helper: &[u32],
    stack: &[u32],
    cache: &[u32],
) -> Result<Looked, RefusedAfter>
    ensures { (link ram : List ℕ) →
        Did (machine.look space page)
        (memory head.now index.now count.now table.now helper.now stack.now
        cache.now link ram)
        (looked_says result)
        (memory head.now index.now count.now table.now helper.now stack.now
        cache.now link ram) }
{
    lookup::look(
        *head, space, page, index, count, table, helper, stack, cache,
    )
}

// Gives back every page of the region that starts at a page, in constant time.
pub fn release(
    head: &mut Head,
    space: u32,
    page: u32,
    index: &[u64],
    count: &mut [u32],
    table: &[u32],
    stack: &[u32],
    link: &mut [u32],
) -> Result<u32, Refusal>
    ensures { (helper cache ram : List ℕ) →
        Did (machine.release space page)
        (memory head.old index.now count.old table.now helper stack.now cache link.old ram)
        (released_says result)
        (memory head.new index.now count.new table.now helper stack.now cache link.new ram) }
{
    let released = releasing::release(*head, space, page, index, count, table, stack, link);
    head.first = released.head.first;
    head.many = released.head.many;
    released.answer
}

// Hands one page back, in constant time: its region's newest page takes its position, its frame goes to the pool's front.
pub fn give_back(
    head: &mut Head,
    space: u32,
    page: u32,
    index: &[u64],
    count: &mut [u32],
    table: &[u32],
    helper: &mut [u32],
    stack: &mut [u32],
    cache: &[u32],
    link: &mut [u32],
) -> Result<(), Refusal>
    ensures { (ram : List ℕ) →
        Did (machine.give_back space page)
        (memory head.old index.now count.old table.now helper.old stack.old
        cache.now link.old ram)
        (given_back_says result)
        (memory head.new index.now count.new table.now helper.new stack.new
        cache.now link.new ram) }
{
    let given = giving::give_back(
        *head, space, page, index, count, table, helper, stack, cache, link,
    );
    head.first = given.head.first;
    head.many = given.head.many;
    given.answer
}

// The frames in the pool. Lent nothing but the head.
pub fn free(head: &Head) -> Result<u32, Refusal>
    ensures { (index count table helper stack cache link ram : List ℕ) →
        Did (λ _. machine.free) (memory head.now index count table helper stack cache link ram) (free_says result)
        (memory head.now index count table helper stack cache link ram) }
{
    pool::free(*head)
}

// The place in RAM of an address.
pub fn translate(
    head: &Head,
    space: u32,
    address: usize,
    index: &[u64],
    count: &[u32],
    table: &[u32],
    helper: &[u32],
    stack: &[u32],
    cache: &[u32],
) -> Result<usize, Refusal>
    ensures { (link ram : List ℕ) →
        Did (machine.translate space address)
        (memory head.now index.now count.now table.now helper.now stack.now
        cache.now link ram)
        (translated_says result)
        (memory head.now index.now count.now table.now helper.now stack.now
        cache.now link ram) }
{
    translating::translate(
        *head, space, address, index, count, table, helper, stack, cache,
    )
}

// The bytes of a span into the caller's buffer: every page is looked up before the first byte is copied.
pub fn read(
    head: &Head,
    space: u32,
    address: usize,
    buffer: &mut [u8],
    index: &[u64],
    count: &[u32],
    table: &[u32],
    helper: &[u32],
    stack: &[u32],
    cache: &[u32],
    ram: &[u8],
) -> Result<(), Refusal>
    ensures { (link : List ℕ) →
        ReadDid space address
        (memory head.now index.now count.now table.now helper.now stack.now
        cache.now link ram.now)
        result buffer.old buffer.new }
{
    reading::read(
        *head, space, address, buffer, index, count, table, helper, stack, cache, ram,
    )
}

// Stores bytes at a span's addresses, mapping pages that are absent: all or nothing.
pub fn write(
    head: &mut Head,
    space: u32,
    address: usize,
    bytes: &[u8],
    index: &[u64],
    count: &mut [u32],
    table: &mut [u32],
    helper: &mut [u32],
    stack: &mut [u32],
    cache: &mut [u32],
    link: &mut [u32],
    ram: &mut [u8],
) -> Result<(), Refusal>
    ensures { Did (machine.write space address bytes.now)
        (memory head.old index.now count.old table.old helper.old stack.old
        cache.old link.old ram.old)
        (done_says result)
        (memory head.new index.now count.new table.new helper.new stack.new cache.new
        link.new ram.new) }
{
    let written = writing::write(
        *head, space, address, bytes, index, count, table, helper, stack, cache, link, ram,
    );
    head.first = written.head.first;
    head.many = written.head.many;
    head.fresh = written.head.fresh;
    written.answer
}

// One record a region of a space, ascending. Those after the last stay. All that is decided is decided in crate listing.
fn list_into(
    head: Head,
    space: u32,
    records: &mut [Region],
    index: &[u64],
    count: &[u32],
) -> Result<u32, Refusal>
    ensures { (table helper stack cache link ram : List ℕ) →
        RecordsDid space (memory head index.now count.now table helper stack cache link ram) result records.old
        records.new }
{
    let regions = survey(head, space, records.len(), index, count)?;
    let mut rest = regions;
    // A `while`: the cursor itself counts down what is left.
    while 0 < rest.left {
        let told = last_region(index, count, rest);
        rest = told.rest;
        records[rest.left] = told.region;
    }
    Ok(regions.left as u32)
}

// One record a region of a space, ascending. Those after the last stay.
pub fn list(
    head: &Head,
    space: u32,
    records: &mut [Region],
    index: &[u64],
    count: &[u32],
) -> Result<u32, Refusal>
    ensures { (table helper stack cache link ram : List ℕ) →
        RecordsDid space (memory head.now index.now count.now table helper stack cache link ram) result records.old
        records.new }
{
    list_into(*head, space, records, index, count)
}

// The whole state but for the RAM as a map file at the front of the caller's buffer. The bytes after it stay.
pub fn write_map(
    head: &Head,
    index: &[u64],
    count: &[u32],
    table: &[u32],
    stack: &[u32],
    link: &[u32],
    file: &mut [u8],
) -> Result<u32, Refusal>
    ensures { (helper cache ram : List ℕ) →
        MapDid
        (memory head.now index.now count.now table.now helper stack.now cache link.now ram)
        result file.old file.new }
{
    saving::write_map(*head, index, count, table, stack, link, file)
}

// Begins anew with the state that a map file describes: all of the file is judged before the first word is stored.
pub fn read_map(
    head: &mut Head,
    file: &[u8],
    index: &mut [u64],
    count: &mut [u32],
    table: &mut [u32],
    helper: &mut [u32],
    stack: &mut [u32],
    cache: &mut [u32],
    link: &mut [u32],
) -> Result<(), Refusal>
    ensures { (ram : List ℕ) →
        Did (machine.read_map file.now)
        (memory head.old index.old count.old table.old helper.old stack.old
        cache.old link.old ram)
        (done_says result)
        (memory head.new index.new count.new table.new helper.new stack.new cache.new
        link.new ram) }
{
    let loaded = loading::read_map(*head, file, index, count, table, helper, stack, cache, link);
    // a refusal leaves the head as it is, which needn't be kept in registers then while the file is judged
    loaded.answer?;
    *head = loaded.head;
    Ok(())
}
