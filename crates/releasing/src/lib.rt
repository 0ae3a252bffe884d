// Releasing a region: one resident count and one frame link, however large the region.
#![tactic(auto)]

ghost use Rattle.std.specs.Prelude.{◌≡◌, List, ℕ, ◌+◌, ◌<◌, ◌≤◌, length};
ghost use Rattle.machine.specs.Machine as machine;
ghost use Rattle.machine.specs.Answers.{released_says};
ghost use Rattle.memory.specs.Memory.{memory, at};
ghost use Rattle.promise.specs.Did.{Did};
ghost use Rattle.releasing.specs.Models.{cut_ok, cut_if};
ghost use Rattle.releasing.specs.Cuts.{Spliceable, Splices, CutOf};

use checks::{all_places, check, place, wide};
use memory::{ANY, Head, Lengths, Out};
use refusals::Refusal;

// Whether the words that a release of the region at a with n pages needs are where they may be.
#[tactic(auto, unfolding(crate::specs::Models::cut_ok))]
fn cuttable(h: Head, table: &[u32], stack: &[u32], t: usize, a: usize, n: usize) -> bool
    requires { (a < t) × (0 < n) × (n < 4294967296) × (t ≤ 262144) × (t ≤ length table.now) × (t ≤ length stack.now) }
    ensures { result ≡ cut_ok h table.now stack.now t a n }
{
    if t < a + n {
        return false;
    }
    let first = wide(stack[a]);
    if t <= first {
        return false;
    }
    if h.frames <= table[first] {
        return false;
    }
    if t <= wide(stack[a + n - 1]) {
        return false;
    }
    wide(h.many) + n <= wide(h.frames)
}

// The region at a, if it has pages to give back.
fn cut_at(
    h: Head,
    count: &[u32],
    table: &[u32],
    stack: &[u32],
    t: usize,
    a: usize,
) -> Result<Option<usize>, Refusal>
    requires { (a < t) × (t ≤ 262144) × (t ≤ length count.now) × (t ≤ length table.now) × (t ≤ length stack.now) }
    ensures { result ≡ cut_if (at count.now a) (cut_ok h table.now stack.now t a (at count.now a)) a }
{
    let n = wide(count[a]);
    if n == 0 {
        return Ok(None);
    }
    if cuttable(h, table, stack, t, a, n) {
        return Ok(Some(a));
    }
    Err(Refusal::Damaged)
}

// The region that a release is to give back, if it has pages. Reads only.
fn cut_of(
    head: Head,
    space: u32,
    page: u32,
    index: &[u64],
    count: &[u32],
    table: &[u32],
    stack: &[u32],
    link: &[u32],
) -> Result<Option<usize>, Refusal>
    ensures { CutOf head space page index.now count.now table.now stack.now link.now result }
{
    let lent = Lengths {
        index: index.len(),
        count: count.len(),
        table: table.len(),
        helper: ANY,
        stack: stack.len(),
        cache: ANY,
        link: link.len(),
        ram: ANY,
    };
    check(head, lent, space, page < head.pages)?;
    let t = all_places(head);
    let a = place(head, space, page);
    if layer::bit_at(index, a) {
        return cut_at(head, count, table, stack, t, a);
    }
    Err(Refusal::NoStart)
}

// The splice: the oldest frame is linked to the pool's first, and the newest is the first from here on. Answers the region's pages.
fn splice(
    h: Head,
    count: &mut [u32],
    table: &[u32],
    stack: &[u32],
    link: &mut [u32],
    a: usize,
) -> Out<u32>
    requires { Spliceable h count.old table.now stack.now link.old a }
    ensures { Splices h count.old table.now stack.now link.old a result count.new link.new }
{
    let n = count[a];
    let first = wide(stack[a]);
    let oldest = table[first];
    let newest = pool::newest(table, stack, a, wide(n));
    count[a] = 0;
    let head = pool::put_back(h, link, newest, wide(oldest), n);
    Out { head, answer: n }
}

// Gives back every page of the region that starts at a page, in constant time.
// On any memory the first frame never used stays the same, so that a caller who was lent the head needn't store it.
pub fn release(
    head: Head,
    space: u32,
    page: u32,
    index: &[u64],
    count: &mut [u32],
    table: &[u32],
    stack: &[u32],
    link: &mut [u32],
) -> Out<Result<u32, Refusal>>
    ensures by_index { (helper cache ram : List ℕ) →
        Did (machine.release space page)
        (memory head index.now count.old table.now helper stack.now cache link.old ram)
        (released_says result.answer)
        (memory result.head index.now count.new table.now helper stack.now cache link.new ram) }
    ensures fresh_value { result.head.fresh ≡ head.fresh }
{
    match cut_of(head, space, page, index, count, table, stack, link) {
        Ok(None) => Out {
            head,
            answer: Ok(0),
        },
        Ok(Some(a)) => {
            let done = splice(head, count, table, stack, link, a);
            Out {
                head: done.head,
                answer: Ok(done.answer),
            }
        }
        Err(no) => Out {
            head,
            answer: Err(no),
        },
    }
}
