// Filling the tables from a map file that was judged good: every page of every body, in the order of the file. The RAM stays as it is.
#![tactic(auto)]

ghost use Rattle.std.specs.Prelude.{◌≡◌, true, List, [], ℕ, ◌+◌, ◌*◌, ◌≤◌, length};
ghost use Rattle.std.proofs.Math.Seq.{slice};
ghost use Rattle.words.specs.Words.{words_in};
ghost use Rattle.distinct.specs.Distinct.{picked, Reach};
ghost use Rattle.machine.specs.Map.{whole_from, blocks_in};
ghost use Rattle.memory.specs.Memory.{memory};
ghost use Rattle.entries.specs.Fits.{Mappable};
ghost use Rattle.entries.specs.Models.{map_entry};
ghost use Rattle.walking.specs.Rows.{Bodied};
ghost use Rattle.filling.specs.Filling.{places_from, map_all, CanAll, map_blocks, CanBlocks, map_spaces, CanSpaces};

use entries::map_page;
use memory::Head;
use walking::{Body, body_at};
use words::index_at;

// Maps page p of the region at a, and leaves the head.
fn fill_page(
    head: Head,
    count: &mut [u32],
    table: &mut [u32],
    helper: &mut [u32],
    stack: &mut [u32],
    cache: &mut [u32],
    link: &mut [u32],
    a: usize,
    p: usize,
) -> Head
    requires { Mappable head count.old table.old helper.old stack.old cache.old link.old a p }
    ensures { (index ram : List ℕ) →
        memory result index count.new table.new helper.new stack.new cache.new link.new ram
        ≡ map_entry
        (memory head index count.old table.old helper.old stack.old cache.old link.old ram)
        a p }
{
    let new = map_page(head, count, table, helper, stack, cache, link, a, p);
    new.head
}

// Maps the pages of n entries, the first at word `first`, of the region at a in the space from place lo on.
fn fill_region(
    bytes: &[u8],
    first: usize,
    n: usize,
    lo: usize,
    a: usize,
    head: Head,
    count: &mut [u32],
    table: &mut [u32],
    helper: &mut [u32],
    stack: &mut [u32],
    cache: &mut [u32],
    link: &mut [u32],
) -> Head
    requires { Reach (length bytes.now) first 2 n
        × CanAll (memory head [] count.old table.old helper.old stack.old cache.old link.old []) a
        (places_from lo (picked (words_in bytes.now) first 2 n)) }
    ensures { (index ram : List ℕ) →
        memory result index count.new table.new helper.new stack.new cache.new link.new ram
        ≡ map_all
        (memory head index count.old table.old helper.old stack.old cache.old link.old ram)
        a (places_from lo (picked (words_in bytes.now) first 2 n)) }
{
    let mut after = head;
    for k in 0..n {
        let p = lo + index_at(bytes, first + 2 * k);
        after = fill_page(after, count, table, helper, stack, cache, link, a, p);
    }
    after
}

// Maps the pages of the body, of the space from place lo on.
fn fill_body(
    bytes: &[u8],
    body: Body,
    lo: usize,
    head: Head,
    count: &mut [u32],
    table: &mut [u32],
    helper: &mut [u32],
    stack: &mut [u32],
    cache: &mut [u32],
    link: &mut [u32],
) -> Head
    requires { (body.first ≤ body.to)
        × (4 * body.to ≤ length bytes.now)
        × (lo ≤ 262144)
        × (whole_from 0 (slice body.first body.to (words_in bytes.now)) ≡ true)
        × CanBlocks (memory head [] count.old table.old helper.old stack.old cache.old link.old []) lo
        (blocks_in (slice body.first body.to (words_in bytes.now))) }
    ensures { (index ram : List ℕ) →
        memory result index count.new table.new helper.new stack.new cache.new link.new ram
        ≡ map_blocks
        (memory head index count.old table.old helper.old stack.old cache.old link.old ram)
        lo (blocks_in (slice body.first body.to (words_in bytes.now))) }
{
    let mut after = head;
    let mut at = body.first;
    // A walk over regions (see the head of crate walking).
    while at < body.to {
        let a = lo + index_at(bytes, at);
        let n = index_at(bytes, at + 2);
        after = fill_region(
            bytes,
            at + 3,
            n,
            lo,
            a,
            after,
            count,
            table,
            helper,
            stack,
            cache,
            link,
        );
        at += 3 + 2 * n;
    }
    after
}

// Maps the pages of every body of a file of so many spaces and pages.
pub fn fill_all(
    bytes: &[u8],
    spaces: usize,
    pages: usize,
    head: Head,
    count: &mut [u32],
    table: &mut [u32],
    helper: &mut [u32],
    stack: &mut [u32],
    cache: &mut [u32],
    link: &mut [u32],
) -> Head
    requires { (spaces * pages ≤ 262144) × Bodied (length bytes.now) (words_in bytes.now) spaces
        × CanSpaces (memory head [] count.old table.old helper.old stack.old cache.old link.old []) pages (words_in bytes.now) 0 spaces }
    ensures { (index ram : List ℕ) →
        memory result index count.new table.new helper.new stack.new cache.new link.new ram
        ≡ map_spaces
        (memory head index count.old table.old helper.old stack.old cache.old link.old ram)
        pages (words_in bytes.now) 0 spaces }
{
    let mut after = head;
    for i in 0..spaces {
        after = fill_body(
            bytes,
            body_at(bytes, i),
            i * pages,
            after,
            count,
            table,
            helper,
            stack,
            cache,
            link,
        );
    }
    after
}
