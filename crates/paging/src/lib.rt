// What a touch does to the tables once its checks have passed: a resident page answers its frame, an absent one is mapped to the pool's
// first. The frame of a new page is the caller's to clear: a write need not clear what it is about to store over.
#![tactic(auto)]

ghost use Rattle.std.specs.Prelude.{◌≡◌, List, ℕ};
ghost use Rattle.machine.specs.Machine as machine;
ghost use Rattle.machine.specs.Answers.{touched_says};
ghost use Rattle.memory.specs.Memory.{memory};
ghost use Rattle.promise.specs.Did.{Did};
ghost use Rattle.paging.specs.Fits.{Touchable, RamLong, Due};
ghost use Rattle.paging.specs.Models.{cleared_for, tabled_for};

use checks::{all_places, place};
use entries::map_page;
use lookup::{Sight, see};
use machine::{RefusedAfter, Touched};
use memory::{Head, Out};
use planning::{Plan, plan_for};

// The touch of a page that was looked up: the plan for it, carried out.
pub fn touch_seen(
    head: Head,
    space: u32,
    page: u32,
    seen: Sight,
    count: &mut [u32],
    table: &mut [u32],
    helper: &mut [u32],
    stack: &mut [u32],
    cache: &mut [u32],
    link: &mut [u32],
) -> Out<Result<Touched, RefusedAfter>>
    requires { (index : List ℕ) ×
        Due head space page index count.old table.old helper.old stack.old cache.old link.old seen }
    ensures by_index { (index ram : List ℕ) →
        Due head space page index count.old table.old helper.old stack.old cache.old
        link.old seen →
        RamLong head ram →
        Did (machine.touch space page)
        (memory head index count.old table.old helper.old stack.old cache.old
        link.old ram)
        (touched_says result.answer)
        (memory result.head index count.new table.new helper.new stack.new cache.new
        link.new (cleared_for head result.answer ram)) }
    ensures table_after { table.new ≡ tabled_for head space page result.answer table.old }
{
    let todo = match plan_for(head, seen, count, stack, all_places(head)) {
        Ok(todo) => todo,
        Err(no) => {
            return Out {
                head,
                answer: Err(no),
            };
        }
    };
    match todo {
        Plan::Old(f) => Out {
            head,
            answer: Ok(Touched::Old(f)),
        },
        Plan::New(a, c) => {
            let p = place(head, space, page);
            let new = map_page(head, count, table, helper, stack, cache, link, a, p);
            let frame = new.frame;
            let next = new.head;
            Out {
                head: next,
                answer: Ok(Touched::New(frame, c)),
            }
        }
    }
}

// The touch of a call that passed the checks: a write checks once and touches many pages.
pub fn touch_checked(
    head: Head,
    space: u32,
    page: u32,
    index: &[u64],
    count: &mut [u32],
    table: &mut [u32],
    helper: &mut [u32],
    stack: &mut [u32],
    cache: &mut [u32],
    link: &mut [u32],
) -> Out<Result<Touched, RefusedAfter>>
    requires { Touchable head space page index.now count.old table.old helper.old stack.old cache.old link.old }
    ensures by_index { (ram : List ℕ) →
        RamLong head ram →
        Did (machine.touch space page)
        (memory head index.now count.old table.old helper.old stack.old cache.old
        link.old ram)
        (touched_says result.answer)
        (memory result.head index.now count.new table.new helper.new stack.new cache.new
        link.new (cleared_for head result.answer ram)) }
    ensures table_after { table.new ≡ tabled_for head space page result.answer table.old }
{
    let seen = see(head, space, page, index, count, table, helper, stack, cache);
    touch_seen(
        head, space, page, seen, count, table, helper, stack, cache, link,
    )
}
