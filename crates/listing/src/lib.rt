// Listing the regions of a space. The index is searched from the space's end down, so that nothing but the
// answer needs memory: once to count the regions, once to tell them from the last to the first. `survey` and
// `last_region` serve any slice of records; here one of numbers is filled.
#![tactic(auto)]

ghost use Rattle.std.specs.Prelude.{◌≡◌, List, ℕ, ◌+◌, ◌-◌, ◌*◌, ◌≤◌, ◌<◌, length};
ghost use Rattle.memory.specs.Memory.{memory};
ghost use Rattle.promise.specs.Filled.{ListDid};
ghost use Rattle.listing.specs.Steps.{StartBelow, Many, Tellable, Tells, Surveys, with_record, Fills};

use checks::{all_places, check, place, wide};
use machine::Region;
use memory::{ANY, Head, Lengths};
use refusals::Refusal;

// The regions still to be told, the last first: `left` of them, in the space that begins at place `lo` and below place
// `end`, of `places` in all.
#[derive(Clone, Copy)]
pub struct Cursor {
    pub left: usize,
    pub places: usize,
    pub lo: usize,
    pub end: usize,
}

// The last region to be told, and those before it.
#[derive(Clone, Copy)]
pub struct Told {
    pub region: Region,
    pub rest: Cursor,
}

// The greatest start from place lo on and below place end.
fn start_below(index: &[u64], t: usize, lo: usize, end: usize) -> Option<usize>
    requires { end ≤ t }
    ensures { StartBelow t lo end index.now result }
{
    if end <= lo {
        return None;
    }
    extent::check(index.len(), t, end - 1).ok()?;
    let a = index::find_checked(index, t, end - 1).place?;
    if a < lo {
        return None;
    }
    Some(a)
}

// How many regions start from place lo on and below place end.
fn count_regions(index: &[u64], t: usize, lo: usize, end: usize) -> u32
    requires { (end ≤ t) × (t ≤ 262144) }
    ensures { Many t lo end index.now result }
{
    let mut n = 0;
    let mut last = end;
    while let Some(a) = start_below(index, t, lo, last) {
        n += 1;
        last = a;
    }
    n
}

// The region from place a to before place end of the space that begins at place lo.
fn region_at(lo: usize, a: usize, end: usize, resident: u32) -> Region
    requires { (lo ≤ a) × (a < end) × (end ≤ 262144) }
    ensures { result ≡ record { start = a - lo; length = end - a; resident = resident } }
{
    Region {
        start: (a - lo) as u32,
        length: (end - a) as u32,
        resident,
    }
}

// The last region, taken off those to be told.
pub fn last_region(index: &[u64], count: &[u32], regions: Cursor) -> Told
    requires { (0 < regions.left) × Tellable regions count.now }
    ensures { Tells regions index.now count.now result }
{
    let left = regions.left - 1;
    match start_below(index, regions.places, regions.lo, regions.end) {
        Some(a) => Told {
            region: region_at(regions.lo, a, regions.end, count[a]),
            rest: Cursor {
                left,
                end: a,
                ..regions
            },
        },
        None => Told {
            region: Region {
                start: 0,
                length: 0,
                resident: 0,
            },
            rest: Cursor { left, ..regions },
        },
    }
}

// The regions that a list with room for so many records is to tell, or its refusal. Reads only.
pub fn survey(
    head: Head,
    space: u32,
    room: usize,
    index: &[u64],
    count: &[u32],
) -> Result<Cursor, Refusal>
    ensures { Surveys head space room index.now count.now result }
{
    let lent = Lengths {
        index: index.len(),
        count: count.len(),
        table: ANY,
        helper: ANY,
        stack: ANY,
        cache: ANY,
        link: ANY,
        ram: ANY,
    };
    check(head, lent, space, true)?;
    let places = all_places(head);
    let lo = place(head, space, 0);
    let end = lo + wide(head.pages);
    let left = wide(count_regions(index, places, lo, end));
    if room < left {
        return Err(Refusal::FewRecords);
    }
    Ok(Cursor {
        left,
        places,
        lo,
        end,
    })
}

// Puts record k of a slice of numbers, three a record.
fn put_record(records: &mut [u32], k: usize, region: Region)
    requires { (3 * k + 1 < length records.old) × (3 * k + 2 < length records.old) }
    ensures { records.new ≡ with_record records.old k region }
{
    let at = 3 * k;
    records[at] = region.start;
    records[at + 1] = region.length;
    records[at + 2] = region.resident;
}

// Fills the first records with the regions to be told, ascending.
fn fill(index: &[u64], count: &[u32], records: &mut [u32], regions: Cursor)
    requires { Tellable regions count.now × (3 * regions.left ≤ length records.old) }
    ensures { Fills regions index.now count.now records.old records.new }
{
    let mut rest = regions;
    // A `while`: the cursor itself counts down what is left.
    while 0 < rest.left {
        let told = last_region(index, count, rest);
        rest = told.rest;
        put_record(records, rest.left, told.region);
    }
}

// One record a region of a space, ascending, three numbers each: start, length, resident pages. Those after
// the last stay.
pub fn list(
    head: Head,
    space: u32,
    records: &mut [u32],
    index: &[u64],
    count: &[u32],
) -> Result<u32, Refusal>
    ensures { (table helper stack cache link ram : List ℕ) →
        ListDid space (memory head index.now count.now table helper stack cache link ram) result records.old
        records.new }
{
    let regions = survey(head, space, records.len() / 3, index, count)?;
    fill(index, count, records, regions);
    Ok(regions.left as u32)
}
