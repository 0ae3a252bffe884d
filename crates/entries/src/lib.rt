// The entries of a new page: the pool's first frame for it, and one word in each of the six tables, with no loop.
#![tactic(auto)]

ghost use Rattle.entries.specs.Fits.{Mappable, Mapped};

use checks::wide;
use memory::Head;
use pool::Taken;

// Maps page p of the region at a: one word in each table.
pub fn map_page(
    h: Head,
    count: &mut [u32],
    table: &mut [u32],
    helper: &mut [u32],
    stack: &mut [u32],
    cache: &mut [u32],
    link: &mut [u32],
    a: usize,
    p: usize,
) -> Taken
    requires { Mappable h count.old table.old helper.old stack.old cache.old link.old a p }
    ensures { Mapped h count.old table.old helper.old stack.old cache.old link.old a
        p result
        count.new table.new helper.new stack.new cache.new link.new }
{
    let new = pool::take(h, link);
    let f = wide(new.frame);
    let n = wide(count[a]);
    let before = pool::newest(table, stack, a, n);
    link[f] = before;
    table[p] = new.frame;
    helper[p] = n as u32;
    stack[a + n] = p as u32;
    cache[p] = a as u32;
    count[a] = (n + 1) as u32;
    new
}
