// One step over all the calls: a request in, a reply out. Who plays calls from a list or from lines stands on it.
#![tactic(auto)]

ghost use Rattle.memory.specs.Memory.{memory};
ghost use Rattle.pages.specs.Serves.{Serves};

use memory::{Head, Out};
use pager::{free, list, read, read_map, start, translate, write, write_map};
use pages::serve_page;
use requests::{Reply, Request};

// Makes the call that is requested.
pub fn serve(
    head: Head,
    request: Request,
    buffer: &mut [u8],
    records: &mut [u32],
    index: &mut [u64],
    count: &mut [u32],
    table: &mut [u32],
    helper: &mut [u32],
    stack: &mut [u32],
    cache: &mut [u32],
    link: &mut [u32],
    ram: &mut [u8],
) -> Out<Reply>
    ensures { Serves request
        (memory head index.old count.old table.old helper.old stack.old cache.old
        link.old ram.old)
        buffer.old records.old
        result.answer
        (memory result.head index.new count.new table.new helper.new stack.new cache.new
        link.new ram.new)
        buffer.new records.new }
{
    match request {
        Request::Start(s, n, f, p) => {
            let out = start(head, s, n, f, p, index, count);
            let head = out.head;
            let a = out.answer;
            Out {
                head,
                answer: requests::of_done(a),
            }
        }
        Request::Page(call, i, b) => serve_page(
            head, call, i, b, index, count, table, helper, stack, cache, link, ram,
        ),
        Request::Free => {
            let a = free(head);
            Out {
                head,
                answer: requests::of_free(a),
            }
        }
        Request::Translate(i, x) => {
            let a = translate(head, i, x, index, count, table, helper, stack, cache);
            Out {
                head,
                answer: requests::of_translated(a),
            }
        }
        Request::Read(i, x) => {
            let a = read(
                head, i, x, buffer, index, count, table, helper, stack, cache, ram,
            );
            Out {
                head,
                answer: requests::of_copied(a),
            }
        }
        Request::Write(i, x) => {
            let out = write(
                head, i, x, buffer, index, count, table, helper, stack, cache, link, ram,
            );
            let head = out.head;
            let a = out.answer;
            Out {
                head,
                answer: requests::of_done(a),
            }
        }
        Request::List(i) => {
            let a = list(head, i, records, index, count);
            Out {
                head,
                answer: requests::of_listed(a),
            }
        }
        Request::WriteMap => {
            let a = write_map(head, index, count, table, stack, link, buffer);
            Out {
                head,
                answer: requests::of_written(a),
            }
        }
        Request::ReadMap => {
            let out = read_map(
                head, buffer, index, count, table, helper, stack, cache, link,
            );
            let head = out.head;
            let a = out.answer;
            Out {
                head,
                answer: requests::of_done(a),
            }
        }
    }
}
