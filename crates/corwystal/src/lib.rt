// The entrance for C and Rust: the board's calls, each answer as numbers. Crate corwystal_c exports them.
#![tactic(auto)]

ghost use Rattle.std.specs.Prelude.{◌≡◌, List, ℕ, take, Result};
ghost use Rattle.machine.specs.Machine as machine;
ghost use Rattle.machine.specs.Answers.{done_says, free_says, touched_says, looked_says, released_says, translated_says, copied_says, listed_says, map_written_says};
ghost use Rattle.machine.specs.Answers.{given_back_says};
ghost use Rattle.machine.specs.declared.Touched.{Touched};
ghost use Rattle.machine.specs.declared.Looked.{Looked};
ghost use Rattle.machine.specs.declared.RefusedAfter.{RefusedAfter};
ghost use Rattle.refusals.specs.declared.Refusal.{Refusal};
ghost use Rattle.memory.specs.Memory.{memory};
ghost use Rattle.promise.specs.Did.{Did};
ghost use Rattle.promise.specs.Filled.{ReadDid, RecordsDid, records_filled, MapDid, bytes_filled};
ghost use Rattle.machine.specs.Machine.{sizes};
ghost use Rattle.sizing.specs.Needed.{numbers_of, needed_for};
ghost use Rattle.machine.specs.Fullness.{fullness_of};
ghost use Rattle.requests.specs.Codes.{encoded, numbers_of as answer_numbers};
ghost use Rattle.corwystal.specs.Encodes.{Encodes};

use machine::Region;
use memory::Head;
use requests::Answer;
use sizing::Needs;

// What a start of these sizes and the calls after it must be lent.
pub fn corwystal_sizes(spaces: u32, pages: u32, frames: u32, page: u32) -> Needs
    ensures { numbers_of result ≡ needed_for (sizes spaces pages frames page) }
{
    sizing::needed(spaces, pages, frames, page)
}

// Sets the sizes: no starts, every frame in the pool. Five tables and the RAM may hold anything.
pub fn corwystal_start(
    head: &mut Head,
    spaces: u32,
    pages: u32,
    frames: u32,
    page: u32,
    index: &mut [u64],
    count: &mut [u32],
) -> Answer
    ensures { Encodes (Result (Unit {0}) Refusal) done_says (λ a.
        (table helper stack cache link ram : List ℕ) →
        Did (machine.start (sizes spaces pages frames page))
        (memory head.old index.old count.old table helper stack cache link ram)
        (done_says a)
        (memory head.new index.new count.new table helper stack cache link ram)) result }
{
    requests::encode_done(board::start(head, spaces, pages, frames, page, index, count))
}

// Adds a start.
pub fn corwystal_mark(
    head: &Head,
    space: u32,
    page: u32,
    index: &mut [u64],
    count: &[u32],
) -> Answer
    ensures { Encodes (Result (Unit {0}) Refusal) done_says (λ a.
        (table helper stack cache link ram : List ℕ) →
        Did (machine.mark space page)
        (memory head.now index.old count.now table helper stack cache link ram)
        (done_says a)
        (memory head.now index.new count.now table helper stack cache link ram)) result }
{
    requests::encode_done(board::mark(head, space, page, index, count))
}

// Removes a start whose region has no resident page.
pub fn corwystal_drop(
    head: &Head,
    space: u32,
    page: u32,
    index: &mut [u64],
    count: &[u32],
) -> Answer
    ensures { Encodes (Result (Unit {0}) Refusal) done_says (λ a.
        (table helper stack cache link ram : List ℕ) →
        Did (machine.drop space page)
        (memory head.now index.old count.now table helper stack cache link ram)
        (done_says a)
        (memory head.now index.new count.now table helper stack cache link ram)) result }
{
    requests::encode_done(board::drop(head, space, page, index, count))
}

// The page's frame, mapped if need be; a new page reads as zeros.
pub fn corwystal_touch(
    head: &mut Head,
    space: u32,
    page: u32,
    index: &[u64],
    count: &mut [u32],
    table: &mut [u32],
    helper: &mut [u32],
    stack: &mut [u32],
    cache: &mut [u32],
    link: &mut [u32],
    ram: &mut [u8],
) -> Answer
    ensures { Encodes (Result Touched RefusedAfter) touched_says (λ a.
        Did (machine.touch space page)
        (memory head.old index.now count.old table.old helper.old stack.old
        cache.old link.old ram.old)
        (touched_says a)
        (memory head.new index.now count.new table.new helper.new stack.new cache.new
        link.new ram.new)) result }
{
    requests::encode_touched(board::touch(
        head, space, page, index, count, table, helper, stack, cache, link, ram,
    ))
}

// Whether a page is resident, and its frame. Changes nothing.
pub fn corwystal_look(
    head: &Head,
    space: u32,
    page: u32,
    index: &[u64],
    count: &[u32],
    table: &[u32],
    helper: &[u32],
    stack: &[u32],
    cache: &[u32],
) -> Answer
    ensures { Encodes (Result Looked RefusedAfter) looked_says (λ a.
        (link ram : List ℕ) →
        Did (machine.look space page)
        (memory head.now index.now count.now table.now helper.now stack.now
        cache.now link ram)
        (looked_says a)
        (memory head.now index.now count.now table.now helper.now stack.now
        cache.now link ram)) result }
{
    requests::encode_looked(board::look(
        head, space, page, index, count, table, helper, stack, cache,
    ))
}

// Gives back every page of the region that starts at a page, in constant time.
pub fn corwystal_release(
    head: &mut Head,
    space: u32,
    page: u32,
    index: &[u64],
    count: &mut [u32],
    table: &[u32],
    stack: &[u32],
    link: &mut [u32],
) -> Answer
    ensures { Encodes (Result ℕ Refusal) released_says (λ a.
        (helper cache ram : List ℕ) →
        Did (machine.release space page)
        (memory head.old index.now count.old table.now helper stack.now cache link.old ram)
        (released_says a)
        (memory head.new index.now count.new table.now helper stack.now cache link.new ram)) result }
{
    requests::encode_released(board::release(head, space, page, index, count, table, stack, link))
}

// Hands one page back, in constant time: its region's newest page takes its position, its frame goes to the pool's front.
pub fn corwystal_give_back(
    head: &mut Head,
    space: u32,
    page: u32,
    index: &[u64],
    count: &mut [u32],
    table: &[u32],
    helper: &mut [u32],
    stack: &mut [u32],
    cache: &[u32],
    link: &mut [u32],
) -> Answer
    ensures { Encodes (Result (Unit {0}) Refusal) given_back_says (λ a.
        (ram : List ℕ) →
        Did (machine.give_back space page)
        (memory head.old index.now count.old table.now helper.old stack.old
        cache.now link.old ram)
        (given_back_says a)
        (memory head.new index.now count.new table.now helper.new stack.new
        cache.now link.new ram)) result }
{
    requests::encode_given_back(board::give_back(
        head, space, page, index, count, table, helper, stack, cache, link,
    ))
}

// The frames in the pool. Lent nothing but the head.
pub fn corwystal_free_count(head: &Head) -> Answer
    ensures { Encodes (Result ℕ Refusal) free_says (λ a.
        (index count table helper stack cache link ram : List ℕ) →
        Did (λ _. machine.free) (memory head.now index count table helper stack cache link ram) (free_says a)
        (memory head.now index count table helper stack cache link ram)) result }
{
    requests::encode_free(board::free(head))
}

// The place in RAM of an address.
pub fn corwystal_translate(
    head: &Head,
    space: u32,
    address: usize,
    index: &[u64],
    count: &[u32],
    table: &[u32],
    helper: &[u32],
    stack: &[u32],
    cache: &[u32],
) -> Answer
    ensures { Encodes (Result ℕ Refusal) translated_says (λ a.
        (link ram : List ℕ) →
        Did (machine.translate space address)
        (memory head.now index.now count.now table.now helper.now stack.now
        cache.now link ram)
        (translated_says a)
        (memory head.now index.now count.now table.now helper.now stack.now
        cache.now link ram)) result }
{
    requests::encode_translated(board::translate(
        head, space, address, index, count, table, helper, stack, cache,
    ))
}

// The bytes of a span into the caller's buffer: every page is looked up before the first byte is copied.
pub fn corwystal_read(
    head: &Head,
    space: u32,
    address: usize,
    buffer: &mut [u8],
    index: &[u64],
    count: &[u32],
    table: &[u32],
    helper: &[u32],
    stack: &[u32],
    cache: &[u32],
    ram: &[u8],
) -> Answer
    ensures { Encodes (Result (Unit {0}) Refusal) (λ a. copied_says a buffer.new) (λ a.
        (link : List ℕ) →
        ReadDid space address
        (memory head.now index.now count.now table.now helper.now stack.now
        cache.now link ram.now)
        a buffer.old buffer.new) result }
{
    let n = buffer.len();
    requests::encode_copied(
        board::read(
            head, space, address, buffer, index, count, table, helper, stack, cache, ram,
        ),
        n,
    )
}

// Stores bytes at a span's addresses, mapping pages that are absent: all or nothing.
pub fn corwystal_write(
    head: &mut Head,
    space: u32,
    address: usize,
    bytes: &[u8],
    index: &[u64],
    count: &mut [u32],
    table: &mut [u32],
    helper: &mut [u32],
    stack: &mut [u32],
    cache: &mut [u32],
    link: &mut [u32],
    ram: &mut [u8],
) -> Answer
    ensures { Encodes (Result (Unit {0}) Refusal) done_says (λ a.
        Did (machine.write space address bytes.now)
        (memory head.old index.now count.old table.old helper.old stack.old
        cache.old link.old ram.old)
        (done_says a)
        (memory head.new index.now count.new table.new helper.new stack.new cache.new
        link.new ram.new)) result }
{
    requests::encode_done(board::write(
        head, space, address, bytes, index, count, table, helper, stack, cache, link, ram,
    ))
}

// One record a region of a space, ascending. Records after the last stay.
pub fn corwystal_list(
    head: &Head,
    space: u32,
    records: &mut [Region],
    index: &[u64],
    count: &[u32],
) -> Answer
    ensures { Encodes (Result ℕ Refusal) (λ a. listed_says a (take (records_filled a) records.new)) (λ a.
        (table helper stack cache link ram : List ℕ) →
        RecordsDid space
        (memory head.now index.now count.now table helper stack cache link ram)
        a records.old records.new) result }
{
    requests::encode_listed(board::list(head, space, records, index, count))
}

// The whole state but for the RAM as a map file at the front of the caller's buffer. The bytes after it stay.
pub fn corwystal_write_map(
    head: &Head,
    index: &[u64],
    count: &[u32],
    table: &[u32],
    stack: &[u32],
    link: &[u32],
    file: &mut [u8],
) -> Answer
    ensures { Encodes (Result ℕ Refusal) (λ a. map_written_says a (take (bytes_filled a) file.new)) (λ a.
        (helper cache ram : List ℕ) →
        MapDid
        (memory head.now index.now count.now table.now helper stack.now cache link.now ram)
        a file.old file.new) result }
{
    let n = file.len();
    requests::encode_written(
        board::write_map(head, index, count, table, stack, link, file),
        n,
    )
}

// Begins anew with the state that a map file describes: all of the file is judged before the first word is stored.
pub fn corwystal_read_map(
    head: &mut Head,
    file: &[u8],
    index: &mut [u64],
    count: &mut [u32],
    table: &mut [u32],
    helper: &mut [u32],
    stack: &mut [u32],
    cache: &mut [u32],
    link: &mut [u32],
) -> Answer
    ensures { Encodes (Result (Unit {0}) Refusal) done_says (λ a.
        (ram : List ℕ) →
        Did (machine.read_map file.now)
        (memory head.old index.old count.old table.old helper.old stack.old
        cache.old link.old ram)
        (done_says a)
        (memory head.new index.new count.new table.new helper.new stack.new cache.new
        link.new ram)) result }
{
    requests::encode_done(board::read_map(
        head, file, index, count, table, helper, stack, cache, link,
    ))
}

// How full a space is, from the contents of a map file alone, whatever follows them: its third word as it stands.
pub fn corwystal_how_full(space: u32, contents: &[u8]) -> Answer
    ensures { answer_numbers result ≡ encoded (fullness_of contents.now space) }
{
    requests::encode_fullness(contents::how_full(space, contents))
}
