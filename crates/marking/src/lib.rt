// Marking and dropping regions.
#![tactic(auto)]

ghost use Rattle.std.specs.Prelude.{List, ℕ};
ghost use Rattle.machine.specs.Machine as machine;
ghost use Rattle.machine.specs.Answers.{done_says};
ghost use Rattle.memory.specs.Memory.{memory};
ghost use Rattle.promise.specs.Did.{Did};
ghost use Rattle.marking.specs.Steps.{Searchable, CutPages, MarkedAt, DroppedAt};

use checks::{all_places, check, place};
use memory::Head;
use refusals::Refusal;
use starting::lent;

// The resident pages of the region that a start at p would cut, in the space from lo on.
#[tactic(auto, using(crate::proofs::Placing::found_low))]
fn cut_pages(index: &[u64], count: &[u32], t: usize, lo: usize, p: usize) -> u32
    requires { Searchable t p index.now count.now }
    ensures { CutPages t lo p index.now count.now result }
{
    match index::find_checked(index, t, p).place {
        Some(a) if lo <= a => count[a],
        _ => 0,
    }
}

// A start at p that is none yet, unless it cuts a region with resident pages.
#[tactic(auto, using(crate::proofs::Placing::word_in))]
fn mark_at(index: &mut [u64], count: &[u32], t: usize, lo: usize, p: usize) -> Result<(), Refusal>
    requires { Searchable t p index.old count.now }
    ensures { MarkedAt t lo p index.old count.now (done_says result) index.new }
{
    if layer::bit_at(index, p) {
        return Err(Refusal::IsStart);
    }
    if cut_pages(index, count, t, lo, p) != 0 {
        return Err(Refusal::InUse);
    }
    index::put_checked(index, t, p, true);
    Ok(())
}

// Adds a start.
#[tactic(auto, using(crate::proofs::Pages::page_pass, crate::proofs::Pages::first_pass))]
pub fn mark(
    head: Head,
    space: u32,
    page: u32,
    index: &mut [u64],
    count: &[u32],
) -> Result<(), Refusal>
    ensures { (table helper stack cache link ram : List ℕ) →
        Did (machine.mark space page)
        (memory head index.old count.now table helper stack cache link ram)
        (done_says result)
        (memory head index.new count.now table helper stack cache link ram) }
{
    let lengths = lent(index.len(), count.len());
    check(head, lengths, space, page < head.pages)?;
    let t = all_places(head);
    mark_at(
        index,
        count,
        t,
        place(head, space, 0),
        place(head, space, page),
    )
}

// The start at p gone, unless its region has resident pages.
#[tactic(auto, using(crate::proofs::Placing::word_in))]
fn drop_at(index: &mut [u64], count: &[u32], t: usize, p: usize) -> Result<(), Refusal>
    requires { Searchable t p index.old count.now }
    ensures { DroppedAt t p index.old count.now (done_says result) index.new }
{
    if !layer::bit_at(index, p) {
        return Err(Refusal::NoStart);
    }
    if count[p] != 0 {
        return Err(Refusal::InUse);
    }
    index::put_checked(index, t, p, false);
    Ok(())
}

// Removes a start whose region has no resident page.
#[tactic(auto, using(crate::proofs::Pages::page_pass))]
pub fn drop(
    head: Head,
    space: u32,
    page: u32,
    index: &mut [u64],
    count: &[u32],
) -> Result<(), Refusal>
    ensures { (table helper stack cache link ram : List ℕ) →
        Did (machine.drop space page)
        (memory head index.old count.now table helper stack cache link ram)
        (done_says result)
        (memory head index.new count.now table helper stack cache link ram) }
{
    let lengths = lent(index.len(), count.len());
    check(head, lengths, space, page < head.pages)?;
    drop_at(index, count, all_places(head), place(head, space, page))
}
