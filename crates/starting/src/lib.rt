// Starting: the sizes set, the index and the resident counts prepared. Marking shares the lengths that it tests, the reading of a map what begins.
#![tactic(auto)]

ghost use Rattle.std.specs.Prelude.{◌≡◌, List, ◌++◌, ℕ, ◌≤◌, length, drop as dropped, replicate, Err};
ghost use Rattle.machine.specs.Machine as machine;
ghost use Rattle.machine.specs.Machine.{sizes};
ghost use Rattle.machine.specs.Answers.{done_says};
ghost use Rattle.memory.specs.Memory.{memory};
ghost use Rattle.promise.specs.Did.{Did};
ghost use Rattle.laws.specs.Models.{lent_to};
ghost use Rattle.starting.specs.Models.{change_says};
ghost use Rattle.starting.specs.Steps.{Beginnable, BeginsAs};

use checks::{all_places, check};
use machine::PageSize;
use memory::{ANY, Head, Lengths, Out};
use refusals::Refusal;

// The lengths of a call that is lent the index and the resident counts.
pub fn lent(index: usize, count: usize) -> Lengths
    ensures { result ≡ lent_to index count }
{
    Lengths {
        index,
        count,
        table: ANY,
        helper: ANY,
        stack: ANY,
        cache: ANY,
        link: ANY,
        ram: ANY,
    }
}

// A refused start gives the head back as it was; why it is refused may be told by name or by any number.
pub fn not_started<E>(head: Head, no: E) -> Out<Result<(), E>>
    ensures { (result.head ≡ head) × (result.answer ≡ Err no) }
{
    Out {
        head,
        answer: Err(no),
    }
}

// No place counts a resident page.
fn clear_counts(count: &mut [u32], t: usize)
    requires { t ≤ length count.old }
    ensures { count.new ≡ replicate t 0 ++ dropped t count.old }
{
    count[..t].fill(0);
}

// Prepares the index and the resident counts, and nothing else.
pub fn begin(next: Head, index: &mut [u64], count: &mut [u32]) -> Out<Result<(), Refusal>>
    requires { Beginnable next count.old }
    ensures { BeginsAs next index.old count.old result.head (done_says result.answer) index.new count.new }
{
    let t = all_places(next);
    let answer = index::prepare(index, t).or(Err(Refusal::Damaged));
    clear_counts(count, t);
    Out { head: next, answer }
}

// Sets the sizes: no starts, every frame in the pool. Five tables and the RAM may hold anything.
pub fn start(
    head: Head,
    spaces: u32,
    pages: u32,
    frames: u32,
    page: u32,
    index: &mut [u64],
    count: &mut [u32],
) -> Out<Result<(), Refusal>>
    ensures { (table helper stack cache link ram : List ℕ) →
        Did (machine.start (sizes spaces pages frames page))
        (memory head index.old count.old table helper stack cache link ram)
        (done_says result.answer)
        (memory result.head index.new count.new table helper stack cache link ram) }
{
    let Ok(size) = PageSize::of(page) else {
        return not_started(head, Refusal::BadSizes);
    };
    let next = Head {
        spaces,
        pages,
        frames,
        page: size,
        first: 0,
        many: 0,
        fresh: 0,
    };
    if let Err(no) = check(next, lent(index.len(), count.len()), 0, true) {
        return not_started(head, no);
    }
    begin(next, index, count)
}
