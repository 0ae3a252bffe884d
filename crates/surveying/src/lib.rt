// What a write finds before its first touch: whether all pages of its span are resident, else how many are absent, and whether the span has
// a region and the pool a frame for each of them.
#![tactic(auto)]

ghost use Rattle.std.specs.Prelude.{List, ℕ, ◌≤◌, ◌<◌};
ghost use Rattle.lookup.specs.Ready.{Lookable};
ghost use Rattle.surveying.specs.Surveys.{AllResident, Whether, Counted, Settled};
ghost use Rattle.refusals.specs.Refusals.{refusal};

use lookup::{frame_of, look_checked};
use memory::Head;
use pool::free;
use refusals::Refusal;

// Whether the pages from first to before end are all resident: then nothing is to be settled and nothing to be mapped.
pub fn all_resident(
    head: Head,
    space: u32,
    first: usize,
    end: usize,
    count: &[u32],
    table: &[u32],
    helper: &[u32],
    stack: &[u32],
    cache: &[u32],
) -> bool
    requires { (index : List ℕ) × (first ≤ end) × (end ≤ head.pages) × Lookable head space index count.now table.now helper.now stack.now
        cache.now }
    ensures { Whether
        (AllResident head space first end count.now table.now helper.now stack.now cache.now) result }
{
    for page in first..end {
        let found = frame_of(head, space, page as u32, count, table, helper, stack, cache);
        if head.frames <= found {
            return false;
        }
    }
    true
}

// How many pages from first to before end are not resident.
pub fn count_absent(
    head: Head,
    space: u32,
    first: usize,
    end: usize,
    count: &[u32],
    table: &[u32],
    helper: &[u32],
    stack: &[u32],
    cache: &[u32],
) -> u32
    requires { (index : List ℕ) × (first ≤ end) × (end ≤ head.pages) × Lookable head space index count.now table.now helper.now stack.now
        cache.now }
    ensures { Counted head space first end count.now table.now helper.now stack.now
        cache.now result }
{
    let mut absent = 0;
    for page in first..end {
        let frame = frame_of(head, space, page as u32, count, table, helper, stack, cache);
        if head.frames <= frame {
            absent += 1;
        }
    }
    absent
}

// What settles a write whose span begins at page `first` and has so many absent pages, before its first touch: the first page's
// refusal, or that the pool has fewer frames than pages are absent. If the first page has a region, all have.
pub fn settle(
    head: Head,
    space: u32,
    first: usize,
    absent: u32,
    index: &[u64],
    count: &[u32],
    table: &[u32],
    helper: &[u32],
    stack: &[u32],
    cache: &[u32],
) -> Result<(), Refusal>
    requires { (first < head.pages) × Lookable head space index.now count.now table.now helper.now stack.now cache.now }
    ensures { Settled head space first absent index.now count.now table.now helper.now
        stack.now cache.now (refusal result) }
{
    let found = look_checked(
        head,
        space,
        first as u32,
        index,
        count,
        table,
        helper,
        stack,
        cache,
    );
    if let Err(no) = found {
        return Err(no.refusal);
    }
    if free(head)? < absent {
        return Err(Refusal::PoolEmpty);
    }
    Ok(())
}
