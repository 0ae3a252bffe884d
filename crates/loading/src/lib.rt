// Reading a map file into tables that may hold anything: the file is judged whole before a word is stored, then its state begun and filled.
#![tactic(auto)]

ghost use Rattle.std.specs.Prelude.{◌≡◌, List, ℕ};
ghost use Rattle.machine.specs.Machine as machine;
ghost use Rattle.machine.specs.Answers.{done_says};
ghost use Rattle.memory.specs.Memory.{memory};
ghost use Rattle.promise.specs.Did.{Did};
ghost use Rattle.loading.specs.Steps.{Loadable, Loads};

use checks::check;
use judging::{contents_of, inspect};
use memory::{ANY, Head, Lengths, Out};
use refusals::Refusal;
use restoring::restore;
use starting::{begin, not_started};

// Begins the state of a file that was judged, and fills it.
fn load(
    file: &[u8],
    next: Head,
    index: &mut [u64],
    count: &mut [u32],
    table: &mut [u32],
    helper: &mut [u32],
    stack: &mut [u32],
    cache: &mut [u32],
    link: &mut [u32],
) -> Head
    requires { Loadable file.now next index.old count.old table.old helper.old stack.old cache.old link.old }
    ensures { (ram : List ℕ) → Loads file.now
        (memory next index.old count.old table.old helper.old stack.old cache.old
        link.old ram)
        (memory result index.new count.new table.new helper.new stack.new cache.new
        link.new ram) }
{
    let begun = begin(next, index, count);
    restore(
        file, begun.head, index, count, table, helper, stack, cache, link,
    )
}

// Reads a map: the head, the index and the six tables as the file tells them. The RAM is the caller's and is not looked at.
pub fn read_map(
    head: Head,
    file: &[u8],
    index: &mut [u64],
    count: &mut [u32],
    table: &mut [u32],
    helper: &mut [u32],
    stack: &mut [u32],
    cache: &mut [u32],
    link: &mut [u32],
) -> Out<Result<(), Refusal>>
    ensures { (ram : List ℕ) →
        Did (machine.read_map file.now)
        (memory head index.old count.old table.old helper.old stack.old cache.old
        link.old ram)
        (done_says result.answer)
        (memory result.head index.new count.new table.new helper.new stack.new cache.new
        link.new ram) }
{
    let Some(next) = contents_of(file) else {
        return not_started(head, Refusal::NoMap);
    };
    let lent = Lengths {
        index: index.len(),
        count: count.len(),
        table: table.len(),
        helper: helper.len(),
        stack: stack.len(),
        cache: cache.len(),
        link: link.len(),
        ram: ANY,
    };
    if let Err(no) = check(next, lent, 0, true) {
        return not_started(head, no);
    }
    if !inspect(file) {
        return not_started(head, Refusal::NoMap);
    }
    let after = load(file, next, index, count, table, helper, stack, cache, link);
    Out {
        head: after,
        answer: Ok(()),
    }
}
