// The sets of places that finds are played on, and the numbers drawn for them.
use std::ops::Range;

// The kinds of sets, each by its number in the lines written.
#[derive(Clone, Copy)]
pub(crate) enum Kind {
    Empty = 0,
    FirstFive = 1,
    LastFive = 2,
    OneAtFront = 3,
    OneInMiddle = 4,
    Dense = 5,
    Sparse = 6,
    SparseThinned = 7,
    Every = 8,
    FrontHalf = 9,
}

pub(crate) const KINDS: [Kind; 10] = [
    Kind::Empty,
    Kind::FirstFive,
    Kind::LastFive,
    Kind::OneAtFront,
    Kind::OneInMiddle,
    Kind::Dense,
    Kind::Sparse,
    Kind::SparseThinned,
    Kind::Every,
    Kind::FrontHalf,
];

// The next of a row of pseudo-random numbers below 2^31.
pub(crate) fn next(x: u64) -> u64 {
    (x % 2_147_483_648 * 1_103_515_245 + 12_345) % 2_147_483_648
}

// A place below t, from the number's upper bits; 0 where t is 0.
pub(crate) fn drawn(x: u64, t: usize) -> usize {
    ((x / 8_192) as usize).checked_rem(t).unwrap_or(0)
}

// Two seeds for each size and kind of set: 0 for the set, 1 for the finds.
pub(crate) fn seed(t: usize, kind: Kind, n: usize) -> u64 {
    (t % 1_048_576 * 32 + kind as usize * 2 + n % 2) as u64
}

// The first place drawn from a seed.
pub(crate) fn first(t: usize, kind: Kind, n: usize) -> usize {
    drawn(next(seed(t, kind, n)), t)
}

fn put(index: &mut [u64], t: usize, p: usize, v: bool) {
    let _ = if v {
        index::set(index, t, p)
    } else {
        index::clear(index, t, p)
    };
}

// Puts places as v says.
fn run(index: &mut [u64], t: usize, places: Range<usize>, v: bool) {
    for p in places {
        put(index, t, p, v);
    }
}

// Puts n drawn places as v says.
fn scatter(index: &mut [u64], t: usize, seed: u64, n: usize, v: bool) {
    let mut x = seed;
    for _ in 0..n {
        x = next(x);
        put(index, t, drawn(x, t), v);
    }
}

// Makes the index of a set of that kind.
pub(crate) fn make(index: &mut [u64], t: usize, kind: Kind) {
    let x = seed(t, kind, 0);
    let _ = index::prepare(index, t);
    match kind {
        Kind::Empty => {}
        Kind::FirstFive => run(index, t, 0..5, true),
        Kind::LastFive => run(index, t, t.saturating_sub(5)..t, true),
        Kind::OneAtFront => put(index, t, 0, true),
        Kind::OneInMiddle => put(index, t, t / 2, true),
        Kind::Dense => scatter(index, t, x, t, true),
        Kind::Sparse => scatter(index, t, x, 40, true),
        // Half of the draws are cleared again.
        Kind::SparseThinned => {
            scatter(index, t, x, 40, true);
            scatter(index, t, x, 20, false);
        }
        Kind::Every => run(index, t, 0..t, true),
        Kind::FrontHalf => {
            run(index, t, 0..t, true);
            run(index, t, t / 2..t, false);
        }
    }
}
