// The pool of free frames: whether it is empty, its first frame taken, a region's chain put back, its length. Its numbers are the head's.
#![tactic(auto)]

ghost use Rattle.std.specs.Prelude.{◌≡◌, List, ℕ, ◌+◌, ◌<◌, ◌≤◌, length, set};
ghost use Rattle.machine.specs.Machine as machine;
ghost use Rattle.machine.specs.Answers.{free_says};
ghost use Rattle.memory.specs.Memory.{memory};
ghost use Rattle.promise.specs.Did.{Did};
ghost use Rattle.pool.specs.Models.{empty_pool, next_ok, taken, newest_of, with_chain};
ghost use Rattle.pool.specs.Takes.{Takeable, Top};

use checks::{sizes_ok, wide};
use memory::Head;
use refusals::Refusal;

// A frame taken from the pool, and the head without it.
#[derive(Clone, Copy)]
pub struct Taken {
    pub frame: u32,
    pub head: Head,
}

// Whether no frame is left.
#[tactic(auto, unfolding(crate::specs::Models::empty_pool))]
pub fn is_empty(h: Head) -> bool
    ensures { result ≡ empty_pool h }
{
    if h.many != 0 {
        return false;
    }
    h.frames <= h.fresh
}

// Whether the next frame is a frame.
pub fn next_ok(h: Head) -> bool
    ensures { result ≡ next_ok h.frames h.first h.many }
{
    if h.many == 0 {
        return true;
    }
    h.first < h.frames
}

// The pool's first frame: a linked one, or one never used.
pub fn take(h: Head, link: &[u32]) -> Taken
    requires { Takeable h link.now }
    ensures { result ≡ taken link.now h }
{
    if h.many == 0 {
        let fresh = h.fresh + 1;
        let rest = Head {
            many: 0,
            fresh,
            ..h
        };
        return Taken {
            frame: h.fresh,
            head: rest,
        };
    }
    let f = wide(h.first);
    let first = link[f];
    let many = h.many - 1;
    let rest = Head { first, many, ..h };
    Taken {
        frame: h.first,
        head: rest,
    }
}

// The frame of the newest page of a region of n pages.
pub fn newest(table: &[u32], stack: &[u32], a: usize, n: usize) -> u32
    requires { Top table.now stack.now a n }
    ensures { result ≡ newest_of table.now stack.now a n }
{
    if n == 0 {
        return 0;
    }
    let q = wide(stack[a + (n - 1)]);
    table[q]
}

// Puts a region's chain of n frames before the pool: its oldest frame is linked to the pool's first, its newest is now the first.
pub fn put_back(h: Head, link: &mut [u32], newest: u32, oldest: usize, n: u32) -> Head
    requires { (oldest < length link.old) × (h.many + n ≤ 65536) }
    ensures value { result ≡ with_chain h newest n }
    ensures link_after { link.new ≡ set link.old oldest h.first }
{
    let many = h.many + n;
    link[oldest] = h.first;
    Head {
        first: newest,
        many,
        ..h
    }
}

// The frames in the pool. Lent nothing but the head.
#[tactic(auto, using(machine::proofs::Laws::Sizes::fit))]
pub fn free(head: Head) -> Result<u32, Refusal>
    ensures { (index count table helper stack cache link ram : List ℕ) →
        Did (λ _. machine.free) (memory head index count table helper stack cache link ram) (free_says result)
        (memory head index count table helper stack cache link ram) }
{
    if !sizes_ok(head) {
        return Err(Refusal::BadSizes);
    }
    // a linked frame was given once, so there are no more of them than were given
    if head.fresh < head.many {
        return Err(Refusal::Damaged);
    }
    if head.frames < head.fresh {
        return Err(Refusal::Damaged);
    }
    Ok(head.many + (head.frames - head.fresh))
}
