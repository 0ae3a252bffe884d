// Whether numbers that stand in a file are all below a bound and all different. Those seen so far are a set in a lent buffer, kept by the crate
// `index` and used only through its promise.
#![tactic(auto)]

ghost use Rattle.std.specs.Prelude.{◌≡◌, false, [], ◌∷◌, ◌≤◌, length};
ghost use Rattle.places.specs.Places.{all_new};
ghost use Rattle.extent.specs.Checks.{check_size};
ghost use Rattle.words.specs.Words.{words_in};
ghost use Rattle.distinct.specs.Distinct.{picked, Reach, in_window, Emptied, Saw};

use words::index_at;

// Makes the set empty, for numbers below the bound.
pub fn empty(seen: &mut [u64], bound: usize)
    requires { (1 ≤ bound) × (bound ≤ 65536) × (1041 ≤ length seen.old) }
    ensures { Emptied bound seen.old seen.new }
{
    let _ = index::prepare(seen, bound);
}

// Puts w into the set; false where it isn't below the bound or was in the set already.
fn see(seen: &mut [u64], bound: usize, w: usize) -> bool
    requires { check_size (length seen.old) bound ≡ 0 }
    ensures { Saw bound (w ∷ []) seen.old result seen.new }
{
    index::insert(seen, bound, w).unwrap_or(false)
}

// Puts n words of a file into the set, every so many from word `from` on; false at the first that can't be.
pub fn all_new(
    bytes: &[u8],
    from: usize,
    step: usize,
    n: usize,
    bound: usize,
    seen: &mut [u64],
) -> bool
    requires { Reach (length bytes.now) from step n × (step ≤ 4) × (check_size (length seen.old) bound ≡ 0) }
    ensures { Saw bound (picked (words_in bytes.now) from step n) seen.old result seen.new }
{
    for k in 0..n {
        let w = index_at(bytes, from + step * k);
        if !see(seen, bound, w) {
            return false;
        }
    }
    true
}

// Puts w - lo into the set, where w lies in the window of `size` numbers from lo on; false where it was in the set already.
fn see_within(seen: &mut [u64], lo: usize, size: usize, w: usize) -> bool
    requires { check_size (length seen.old) size ≡ 0 }
    ensures { Saw size (in_window lo size (w ∷ [])) seen.old result seen.new }
{
    // not by `checked_sub`: two instructions a word more
    if w < lo || size <= w - lo {
        return true;
    }
    see(seen, size, w - lo)
}

// The same for n words of a file, every second from word `from` on; false at the first that can't be. A loop of its own beside `all_new`:
// with the call that differs as a closure, the closure's contract would be longer than the loop.
fn see_window(bytes: &[u8], from: usize, n: usize, lo: usize, size: usize, seen: &mut [u64]) -> bool
    requires { Reach (length bytes.now) from 2 n × (check_size (length seen.old) size ≡ 0) }
    ensures { Saw size (in_window lo size (picked (words_in bytes.now) from 2 n)) seen.old result seen.new }
{
    for k in 0..n {
        let w = index_at(bytes, from + 2 * k);
        if !see_within(seen, lo, size, w) {
            return false;
        }
    }
    true
}

// Whether those of n words of a file, every second from word `from` on, that lie in the window of `size` numbers from lo on are all different.
pub fn window_new(
    bytes: &[u8],
    from: usize,
    n: usize,
    lo: usize,
    size: usize,
    seen: &mut [u64],
) -> bool
    requires { Reach (length bytes.now) from 2 n × (1 ≤ size) × (size ≤ 65536) × (1041 ≤ length seen.old) }
    ensures { (result ≡ all_new size (λ _. false) (in_window lo size (picked (words_in bytes.now) from 2 n)))
        × (length seen.new ≡ length seen.old) }
{
    empty(seen, size);
    see_window(bytes, from, n, lo, size, seen)
}
