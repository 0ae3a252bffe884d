// The map file of document 02, W-202, written from the tables. A first pass counts what there is to write; only then
// is anything stored, word after word, so that a refusal leaves the file's buffer. Damaged tables are written as they
// stand: a word past a table's end counts as 0.
#![tactic(auto)]

ghost use Rattle.std.specs.Prelude.{◌≡◌, true, ◌&&◌, List, [], ◌∷◌, ℕ, ◌+◌, ◌-◌, ◌*◌, ◌≤◌, ◌<◌, eqb, leb, length};
ghost use Rattle.sequence.specs.Lists.{tabulate};
ghost use Rattle.sequence.specs.Sums.{sum_from};
ghost use Rattle.machine.specs.Machine.{sizes_ok};
ghost use Rattle.machine.specs.Map.{entry_words, body_words, bodies, first_body};
ghost use Rattle.memory.specs.Memory.{memory, at, sizes_of};
ghost use Rattle.promise.specs.Did.{frames_left};
ghost use Rattle.promise.specs.Filled.{MapDid};
ghost use Rattle.promise.specs.Holds.{unused};
ghost use Rattle.saving.specs.Saved.{entries_from, blocks_from, space_from, chained, pool_from, counts_in, saved_words};
ghost use Rattle.saving.specs.Storing.{put_words, Room, Stored};
ghost use Rattle.saving.specs.Steps.{block_at, block_words};
ghost use Rattle.saving.specs.Sizes.{body_size, space_size, space_rows, content_words};
ghost use Rattle.saving.specs.Asked.{Walkable, Tallied, Listable, Storable};

use checks::{all_places, check, wide};
use memory::{ANY, Head, Lengths};
use refusals::Refusal;
use scanning::next_start;
use words::put_word;

// How many regions there are, and how many resident pages in them.
#[derive(Clone, Copy)]
struct Tally {
    regions: usize,
    pairs: usize,
}

// A table's word; 0 past its end.
fn word_or(words: &[u32], i: usize) -> u32
    ensures { result ≡ at words.now i }
{
    words.get(i).copied().unwrap_or(0)
}

// The page at place q of the space that begins at place lo; 0 for a place before it.
fn page_of(q: u32, lo: usize) -> u32
    ensures { result ≡ q - lo }
{
    wide(q).saturating_sub(lo) as u32
}

// Stores words one after another from word `word` on.
fn put_words<const N: usize>(file: &mut [u8], word: usize, words: [u32; N])
    requires { Room file.old word words }
    ensures { Stored file.old word words.entry file.new (word + N) }
{
    for (k, w) in words.iter().enumerate() {
        put_word(file, word + k, *w);
    }
}

// Stores the n pages of the region at a, in the list's order; answers the word after them.
fn put_entries(
    file: &mut [u8],
    table: &[u32],
    stack: &[u32],
    lo: usize,
    a: usize,
    n: usize,
    word: usize,
) -> usize
    requires { (a ≤ 262144) × (n < 4294967296) × Room file.old word (entry_words (entries_from table.now stack.now lo a n)) }
    ensures { Stored file.old word (entry_words (entries_from table.now stack.now lo a n)) file.new result }
{
    for j in 0..n {
        let q = word_or(stack, a + j);
        let pair = [page_of(q, lo), word_or(table, wide(q))];
        put_words(file, word + 2 * j, pair);
    }
    word + 2 * n
}

// Stores the region from place a to before place next; answers the word after it.
fn put_block(
    file: &mut [u8],
    count: &[u32],
    table: &[u32],
    stack: &[u32],
    lo: usize,
    a: usize,
    next: usize,
    word: usize,
) -> usize
    requires { (lo ≤ a) × (a < next) × (next ≤ 262144) × (a < length count.now)
        × Room file.old word (block_words (block_at count.now table.now stack.now lo a next)) }
    ensures { Stored file.old word
        (block_words (block_at count.now table.now stack.now lo a next)) file.new result }
{
    let n = count[a];
    put_words(file, word, [(a - lo) as u32, (next - a) as u32, n]);
    put_entries(file, table, stack, lo, a, wide(n), word + 3)
}

// Stores the body of the space from place lo to before place end; answers the word after it.
fn put_body(
    file: &mut [u8],
    index: &[u64],
    count: &[u32],
    table: &[u32],
    stack: &[u32],
    lo: usize,
    end: usize,
    word: usize,
) -> usize
    requires { Walkable index.now count.now lo end
        × Room file.old word (body_words (blocks_from index.now count.now table.now stack.now lo 0 (end - lo))) }
    ensures { Stored file.old word
        (body_words (blocks_from index.now count.now table.now stack.now lo 0 (end - lo))) file.new result }
{
    let mut a = next_start(index, lo, end);
    let mut to = word;
    // A `while`: only the index tells how far the next start is.
    while a < end {
        let next = next_start(index, a + 1, end);
        to = put_block(file, count, table, stack, lo, a, next, to);
        a = next;
    }
    to
}

// Stores the bodies of so many spaces; answers the word after them.
fn put_bodies(
    file: &mut [u8],
    index: &[u64],
    count: &[u32],
    table: &[u32],
    stack: &[u32],
    pages: usize,
    spaces: usize,
    word: usize,
) -> usize
    requires { Walkable index.now count.now 0 (spaces * pages)
        × Room file.old word (bodies (tabulate (space_from index.now count.now table.now stack.now pages) spaces)) }
    ensures { Stored file.old word
        (bodies (tabulate (space_from index.now count.now table.now stack.now pages) spaces))
        file.new result }
{
    let mut to = word;
    for i in 0..spaces {
        let lo = i * pages;
        to = put_body(file, index, count, table, stack, lo, lo + pages, to);
    }
    to
}

// Counts the regions from place lo to before place end, and their resident pages.
fn tally_between(index: &[u64], count: &[u32], lo: usize, end: usize) -> Tally
    requires { Walkable index.now count.now lo end }
    ensures { Tallied index.now count.now lo end result }
{
    let mut regions = 0;
    let mut pairs = 0;
    let mut a = next_start(index, lo, end);
    // A `while`, as in `put_body`; the two share no more than the line that finds the next start.
    while a < end {
        regions += 1;
        pairs += wide(count[a]);
        a = next_start(index, a + 1, end);
    }
    Tally { regions, pairs }
}

// Stores the row of the space from place lo to before place end, whose body starts at word `body`; answers where the next one's does.
fn put_row(
    file: &mut [u8],
    index: &[u64],
    count: &[u32],
    lo: usize,
    end: usize,
    body: usize,
    word: usize,
) -> usize
    requires { Walkable index.now count.now lo end × (4 * (word + 3) ≤ length file.old)
        × (body + body_size index.now count.now lo (end - lo) < 4294967296) }
    ensures stored { Stored file.old word
        (body ∷ body_size index.now count.now lo (end - lo) ∷ counts_in index.now count.now lo (end - lo) ∷ [])
        file.new (word + 3) }
    ensures value { result ≡ body + body_size index.now count.now lo (end - lo) }
{
    let t = tally_between(index, count, lo, end);
    let pairs = t.pairs;
    let size = 3 * t.regions + 2 * pairs;
    put_words(file, word, [body as u32, size as u32, pairs as u32]);
    body + size
}

// Stores the rows of so many spaces; answers where the pool's body starts.
fn put_rows(file: &mut [u8], index: &[u64], count: &[u32], pages: usize, spaces: usize) -> usize
    requires { Walkable index.now count.now 0 (spaces * pages) × (spaces ≤ 64)
        × Room file.old 4 (space_rows index.now count.now pages (first_body spaces) 0 spaces)
        × (first_body spaces + sum_from (space_size index.now count.now pages) 0 spaces < 4294967296) }
    ensures stored { Stored file.old 4
        (space_rows index.now count.now pages (first_body spaces) 0 spaces) file.new (4 + 3 * spaces) }
    ensures value { result ≡ first_body spaces + sum_from (space_size index.now count.now pages) 0 spaces }
{
    let mut body = 7 + 3 * spaces;
    for i in 0..spaces {
        let lo = i * pages;
        body = put_row(file, index, count, lo, lo + pages, body, 4 + 3 * i);
    }
    body
}

// Stores n frames from `first` on along the links; answers the word after them.
fn put_chain(file: &mut [u8], link: &[u32], first: u32, n: usize, word: usize) -> usize
    requires { Room file.old word (chained link.now first n) }
    ensures { Stored file.old word (chained link.now first n) file.new result }
{
    let mut f = first;
    for k in 0..n {
        put_word(file, word + k, f);
        f = word_or(link, wide(f));
    }
    word + n
}

// Stores the frames that were never used.
fn put_unused(file: &mut [u8], fresh: u32, frames: u32, word: usize)
    requires { Room file.old word (unused fresh frames) }
    ensures { file.new ≡ put_words file.old word (unused fresh frames) }
{
    for frame in fresh..frames {
        put_word(file, word + wide(frame - fresh), frame);
    }
}

// Stores the four sizes, the file's first words.
fn put_sizes(file: &mut [u8], head: Head)
    requires { (sizes_ok (sizes_of head) ≡ true) × (16 ≤ length file.old) }
    ensures { Stored file.old 0 (head.spaces ∷ head.pages ∷ head.frames ∷ (sizes_of head).page ∷ []) file.new 4 }
{
    let page = 1u32 << head.page.shift;
    put_words(file, 0, [head.spaces, head.pages, head.frames, page]);
}

// The frames in the pool.
fn free_frames(head: Head) -> usize
    requires { head.fresh ≤ head.frames }
    ensures { (result ≡ frames_left head) × (result ≤ 8589934590) }
{
    wide(head.many) + wide(head.frames - head.fresh)
}

// Whether so many resident pages and the pool are all frames.
fn adds_up(head: Head, pairs: usize) -> bool
    requires { pairs ≤ 1125899906842624 }
    ensures { result ≡ (leb head.fresh head.frames && eqb (pairs + frames_left head) head.frames) }
{
    head.fresh <= head.frames && pairs + free_frames(head) == wide(head.frames)
}

// Stores the contents: the four sizes, a row for each space and one for the pool.
fn put_contents(file: &mut [u8], head: Head, index: &[u64], count: &[u32])
    requires { Listable head index.now count.now × Room file.old 0 (content_words head index.now count.now) }
    ensures { Stored file.old 0 (content_words head index.now count.now)
        file.new (first_body head.spaces) }
{
    let spaces = wide(head.spaces);
    put_sizes(file, head);
    let body = put_rows(file, index, count, wide(head.pages), spaces);
    let free = free_frames(head) as u32;
    put_words(file, 4 + 3 * spaces, [body as u32, free, free]);
}

// Stores the pool from word `word` on.
fn put_pool(file: &mut [u8], head: Head, link: &[u32], word: usize)
    requires { Room file.old word (pool_from head link.now) }
    ensures { file.new ≡ put_words file.old word (pool_from head link.now) }
{
    let last = put_chain(file, link, head.first, wide(head.many), word);
    put_unused(file, head.fresh, head.frames, last);
}

// Stores the whole file, which there is room for.
fn store(
    file: &mut [u8],
    head: Head,
    index: &[u64],
    count: &[u32],
    table: &[u32],
    stack: &[u32],
    link: &[u32],
)
    requires { Storable (memory head index.now count.now table.now [] stack.now [] link.now []) file.old }
    ensures { file.new ≡ put_words file.old 0 (saved_words
        (memory head index.now count.now table.now [] stack.now [] link.now [])) }
{
    let spaces = wide(head.spaces);
    put_contents(file, head, index, count);
    let last = put_bodies(
        file,
        index,
        count,
        table,
        stack,
        wide(head.pages),
        spaces,
        7 + 3 * spaces,
    );
    put_pool(file, head, link, last);
}

// Writes the map file to the front of `file`; answers its length in bytes.
pub fn write_map(
    head: Head,
    index: &[u64],
    count: &[u32],
    table: &[u32],
    stack: &[u32],
    link: &[u32],
    file: &mut [u8],
) -> Result<u32, Refusal>
    ensures { (helper cache ram : List ℕ) →
        MapDid (memory head index.now count.now table.now helper stack.now cache link.now ram) result
        file.old file.new }
{
    let lengths = Lengths {
        index: index.len(),
        count: count.len(),
        table: table.len(),
        helper: ANY,
        stack: stack.len(),
        cache: ANY,
        link: link.len(),
        ram: ANY,
    };
    check(head, lengths, 0, true)?;
    let t = tally_between(index, count, 0, all_places(head));
    let pairs = t.pairs;
    if !adds_up(head, pairs) {
        return Err(Refusal::Damaged);
    }
    let bytes = 4 * (7 + 3 * wide(head.spaces) + 3 * t.regions + 2 * pairs + free_frames(head));
    if file.len() < bytes {
        return Err(Refusal::ShortFile);
    }
    let length = bytes as u32;
    store(file, head, index, count, table, stack, link);
    Ok(length)
}
