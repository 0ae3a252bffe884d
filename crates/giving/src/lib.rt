// Handing one page back, in constant time: the region's newest page takes its position, and its frame goes to the pool's front.
#![tactic(auto)]

ghost use Rattle.std.specs.Prelude.{◌≡◌, List, ℕ, ◌+◌, ◌<◌, ◌≤◌, ltb, length};
ghost use Rattle.machine.specs.Machine as machine;
ghost use Rattle.machine.specs.Answers.{given_back_says};
ghost use Rattle.memory.specs.Memory.{memory, at};
ghost use Rattle.promise.specs.Did.{Did};
ghost use Rattle.giving.specs.Models.{pair_ok, neighbour_ok, leave_ok_at, relinked, refused_out};
ghost use Rattle.giving.specs.Fits.{Seated, Mendable, Leavable, Leaves, Handed};

use checks::{all_places, check, place, wide};
use lookup::{Sight, see};
use memory::{ANY, Head, Lengths, Out};
use refusals::Refusal;

// Whether word w of the stack is a place whose page has a frame.
#[tactic(auto, unfolding(crate::specs::Models::pair_ok))]
fn pair_ok(frames: u32, table: &[u32], stack: &[u32], t: usize, w: usize) -> bool
    requires { (w < length stack.now) × (t ≤ length table.now) }
    ensures { result ≡ pair_ok frames table.now stack.now t w }
{
    let q = wide(stack[w]);
    if t <= q {
        return false;
    }
    table[q] < frames
}

// The same of the younger neighbour of the page at position i of the region at a; the newest, at position n, has none.
#[tactic(auto, unfolding(crate::specs::Models::neighbour_ok))]
fn neighbour_ok(
    frames: u32,
    table: &[u32],
    stack: &[u32],
    t: usize,
    a: usize,
    i: usize,
    n: usize,
) -> bool
    requires { (t ≤ length table.now) × (t ≤ length stack.now) × (a + n < t) × (t ≤ 262144) }
    ensures { result ≡ neighbour_ok frames table.now stack.now t a i n }
{
    if i < n {
        return pair_ok(frames, table, stack, t, a + i + 1);
    }
    true
}

// Whether the words that a hand-back needs are where they may be: the newest page's, and the younger neighbour's.
#[tactic(auto, unfolding(crate::specs::Models::leave_ok_at))]
fn leavable(h: Head, table: &[u32], stack: &[u32], t: usize, a: usize, i: usize, n: usize) -> bool
    requires { (t ≤ length table.now) × (t ≤ length stack.now) × (t ≤ 262144) × (a < 262144) × (n < 4294967296) }
    ensures { result ≡ leave_ok_at h table.now stack.now t a i n }
{
    if t <= a + n {
        return false;
    }
    if !pair_ok(h.frames, table, stack, t, a + n) {
        return false;
    }
    if !neighbour_ok(h.frames, table, stack, t, a, i, n) {
        return false;
    }
    h.many < h.frames
}

// Takes frame f, of the page at position i of n + 1, out of its region's chain and puts the newest's, `last`, there. The newest itself is just left out.
fn mend(
    link: &mut [u32],
    table: &[u32],
    stack: &[u32],
    a: usize,
    i: usize,
    n: usize,
    f: u32,
    last: u32,
)
    requires { Mendable link.old table.now stack.now a i n f last }
    ensures { link.new ≡ relinked (ltb i n) link.old f (at table.now (at stack.now (a + i + 1))) last }
{
    if n <= i {
        return;
    }
    let next = table[wide(stack[a + i + 1])];
    let older = link[wide(f)];
    // in this order: where the leaver is the newest's neighbour both are one link, and the second counts
    link[wide(next)] = last;
    link[wide(last)] = older;
}

// The page at place p, at position i of the region at a, leaves: one word each of count, helper and stack, three links at most.
fn leave(
    h: Head,
    count: &mut [u32],
    table: &[u32],
    helper: &mut [u32],
    stack: &mut [u32],
    link: &mut [u32],
    a: usize,
    i: u32,
    n: u32,
    p: usize,
) -> Head
    requires { Leavable h count.old table.now helper.old stack.old link.old a i n p }
    ensures { Leaves h count.old table.now helper.old stack.old link.old a i n p result
        count.new helper.new stack.new link.new }
{
    let newest = stack[a + wide(n)];
    let frame = table[p];
    let last = table[wide(newest)];
    mend(link, table, stack, a, wide(i), wide(n), frame, last);
    count[a] = n;
    helper[wide(newest)] = i;
    stack[a + wide(i)] = newest;
    pool::put_back(h, link, frame, wide(frame), 1)
}

// The hand-back of a page that was found resident, refused with 9 where a word that it needs isn't one that a call left.
fn hand_back(
    h: Head,
    count: &mut [u32],
    table: &[u32],
    helper: &mut [u32],
    stack: &mut [u32],
    cache: &[u32],
    link: &mut [u32],
    t: usize,
    p: usize,
) -> Out<Result<(), Refusal>>
    requires { Seated h t p count.old table.now helper.old stack.old cache.now link.old }
    ensures by_test { Handed h count.old table.now helper.old stack.old cache.now
        link.old t p result count.new helper.new stack.new link.new }
    ensures fresh_value { result.head.fresh ≡ h.fresh }
{
    let a = wide(cache[p]);
    let i = helper[p];
    let n = count[a] - 1;
    if !leavable(h, table, stack, t, a, wide(i), wide(n)) {
        return refused(h, Refusal::Damaged);
    }
    let next = leave(h, count, table, helper, stack, link, a, i, n, p);
    Out {
        head: next,
        answer: Ok(()),
    }
}

fn refused(head: Head, no: Refusal) -> Out<Result<(), Refusal>>
    ensures { result ≡ refused_out head no }
{
    Out {
        head,
        answer: Err(no),
    }
}

// Hands one page back. Its region keeps its start, if it was the only page too.
// On any memory the first frame never used stays the same, so that a caller who was lent the head needn't store it.
pub fn give_back(
    head: Head,
    space: u32,
    page: u32,
    index: &[u64],
    count: &mut [u32],
    table: &[u32],
    helper: &mut [u32],
    stack: &mut [u32],
    cache: &[u32],
    link: &mut [u32],
) -> Out<Result<(), Refusal>>
    ensures by_index { (ram : List ℕ) →
        Did (machine.give_back space page)
        (memory head index.now count.old table.now helper.old stack.old cache.now
        link.old ram)
        (given_back_says result.answer)
        (memory result.head index.now count.new table.now helper.new stack.new cache.now
        link.new ram) }
    ensures fresh_value { result.head.fresh ≡ head.fresh }
{
    let lent = Lengths {
        index: index.len(),
        count: count.len(),
        table: table.len(),
        helper: helper.len(),
        stack: stack.len(),
        cache: cache.len(),
        link: link.len(),
        ram: ANY,
    };
    if let Err(no) = check(head, lent, space, page < head.pages) {
        return refused(head, no);
    }
    match see(head, space, page, index, count, table, helper, stack, cache) {
        Sight::Mapped(_) => {
            let t = all_places(head);
            let p = place(head, space, page);
            hand_back(head, count, table, helper, stack, cache, link, t, p)
        }
        Sight::Unmapped(_, _) => refused(head, Refusal::PageAbsent),
        Sight::Outside(_) => refused(head, Refusal::NoRegion),
        Sight::Broken => refused(head, Refusal::Damaged),
    }
}
