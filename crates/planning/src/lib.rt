// What a touch is to do, decided before anything is changed: the page seen, the pool asked, the region's words tested.
#![tactic(auto)]

ghost use Rattle.std.specs.Prelude.{◌≡◌, ◌+◌, ◌<◌, ◌≤◌, length};
ghost use Rattle.planning.specs.Models.{top_ok, fit_ok, plan_for};
ghost use Rattle.planning.specs.Fits.{InReach};

use checks::wide;
use lookup::Sight;
use machine::RefusedAfter;
use memory::Head;
use refusals::Refusal;

// What a touch is to do: nothing for a resident page; map one of the region that starts at a place.
#[derive(Clone, Copy)]
pub enum Plan {
    Old(u32),
    New(usize, u32),
}

// Whether the newest entry of a region of n pages is a place.
fn top_ok(stack: &[u32], t: usize, a: usize, n: usize) -> bool
    requires { (a + n ≤ length stack.now) × (a + n ≤ 262144) }
    ensures { result ≡ top_ok stack.now t a n }
{
    if n == 0 {
        return true;
    }
    wide(stack[a + (n - 1)]) < t
}

// Whether the words that a new page of the region at a needs are where they may be.
#[tactic(auto, unfolding(crate::specs::Models::fit_ok))]
fn fit(h: Head, count: &[u32], stack: &[u32], t: usize, a: usize) -> bool
    requires { (a < t) × (t ≤ 262144) × (t ≤ length count.now) × (t ≤ length stack.now) }
    ensures { result ≡ fit_ok h count.now stack.now t a }
{
    let n = wide(count[a]);
    if t <= a + n {
        return false;
    }
    if !top_ok(stack, t, a, n) {
        return false;
    }
    pool::next_ok(h)
}

// What a touch is to do about a page so seen. Reads only.
pub fn plan_for(
    h: Head,
    s: Sight,
    count: &[u32],
    stack: &[u32],
    t: usize,
) -> Result<Plan, RefusedAfter>
    requires { InReach s t count.now stack.now }
    ensures { result ≡ plan_for h count.now stack.now t s }
{
    match s {
        Sight::Mapped(f) => Ok(Plan::Old(f)),
        Sight::Unmapped(a, words) => {
            if pool::is_empty(h) {
                return Err(RefusedAfter {
                    refusal: Refusal::PoolEmpty,
                    words,
                });
            }
            if fit(h, count, stack, t, a) {
                return Ok(Plan::New(a, words));
            }
            Err(RefusedAfter {
                refusal: Refusal::Damaged,
                words,
            })
        }
        Sight::Outside(words) => Err(RefusedAfter {
            refusal: Refusal::NoRegion,
            words,
        }),
        Sight::Broken => Err(RefusedAfter::from(Refusal::Damaged)),
    }
}
