// The six calls on a page as one: which of them in, a reply out.
#![tactic(auto)]

ghost use Rattle.std.specs.Prelude.{List, ℕ};
ghost use Rattle.memory.specs.Memory.{memory};
ghost use Rattle.requests.specs.declared.Request.TheVariants.{Page};
ghost use Rattle.pages.specs.Serves.{Serves};

use machine::PageCall;
use memory::{Head, Out};
use pager::{drop, give_back, look, mark, release, touch};
use requests::Reply;

// Makes the call on a page.
pub fn serve_page(
    head: Head,
    call: PageCall,
    space: u32,
    page: u32,
    index: &mut [u64],
    count: &mut [u32],
    table: &mut [u32],
    helper: &mut [u32],
    stack: &mut [u32],
    cache: &mut [u32],
    link: &mut [u32],
    ram: &mut [u8],
) -> Out<Reply>
    ensures { (buffer records : List ℕ) →
        Serves (Page call space page)
        (memory head index.old count.old table.old helper.old stack.old cache.old
        link.old ram.old)
        buffer records
        result.answer
        (memory result.head index.new count.new table.new helper.new stack.new cache.new
        link.new ram.new)
        buffer records }
{
    match call {
        PageCall::Mark => {
            let a = mark(head, space, page, index, count);
            Out {
                head,
                answer: requests::of_done(a),
            }
        }
        PageCall::Drop => {
            let a = drop(head, space, page, index, count);
            Out {
                head,
                answer: requests::of_done(a),
            }
        }
        PageCall::Touch => {
            let out = touch(
                head, space, page, index, count, table, helper, stack, cache, link, ram,
            );
            let head = out.head;
            let a = out.answer;
            Out {
                head,
                answer: requests::of_touched(a),
            }
        }
        PageCall::Look => {
            let a = look(head, space, page, index, count, table, helper, stack, cache);
            Out {
                head,
                answer: requests::of_looked(a),
            }
        }
        PageCall::Release => {
            let out = release(head, space, page, index, count, table, stack, link);
            let head = out.head;
            let a = out.answer;
            Out {
                head,
                answer: requests::of_released(a),
            }
        }
        PageCall::GiveBack => {
            let out = give_back(
                head, space, page, index, count, table, helper, stack, cache, link,
            );
            let head = out.head;
            let a = out.answer;
            Out {
                head,
                answer: requests::of_given_back(a),
            }
        }
    }
}
