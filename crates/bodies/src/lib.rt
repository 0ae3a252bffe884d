// The bodies of a map file that is to be read: whether each is fine, and whether every frame of them and of the pool stands there once. Nothing is
// stored but the numbers seen, in a lent buffer.
#![tactic(auto)]

ghost use Rattle.std.specs.Prelude.{◌≡◌, true, false, ◌++◌, ℕ, ◌≤◌, length};
ghost use Rattle.std.proofs.Math.Seq.{slice};
ghost use Rattle.places.specs.Places.{all_new};
ghost use Rattle.extent.specs.Checks.{check_size};
ghost use Rattle.words.specs.Words.{words_in};
ghost use Rattle.machine.specs.Map.{blocks_in, part_in};
ghost use Rattle.machine.specs.MapRules.{all_within, pages_once, bodies_fine, held_frames};
ghost use Rattle.distinct.specs.Distinct.{picked, Reach, Saw};
ghost use Rattle.walking.specs.Rows.{Rowed, Bodied};
ghost use Rattle.bodies.specs.Bodies.{body_frames, WholeAt, FineAt};

use distinct::{all_new, window_new};
use walking::{Body, body_at, body_fine};
use words::index_at;

// How many pages are looked at together: the set has room for so many.
const WINDOW: usize = 65_536;

// Whether the pages of n entries, the first at word `from`, are all different, where they lie from page lo on and below page hi.
fn region_once(bytes: &[u8], from: usize, n: usize, lo: usize, hi: usize, seen: &mut [u64]) -> bool
    requires { Reach (length bytes.now) from 2 n × (all_within lo hi (picked (words_in bytes.now) from 2 n) ≡ true) × (1041 ≤ length seen.old) }
    ensures { ((t : ℕ) → hi ≤ t → result ≡ all_new t (λ _. false) (picked (words_in bytes.now) from 2 n))
        × (length seen.new ≡ length seen.old) }
{
    if n < 2 {
        return true;
    }
    let mut at = lo;
    // Windows and not `step_by`: the last one is cut off at `hi`, so each needs its own size all the same.
    while at < hi {
        let size = WINDOW.min(hi - at);
        if !window_new(bytes, from, n, at, size, seen) {
            return false;
        }
        at += size;
    }
    true
}

// Whether no page stands twice in a region of the body.
fn pages_once(bytes: &[u8], body: Body, pages: usize, seen: &mut [u64]) -> bool
    requires { FineAt (length bytes.now) (words_in bytes.now) body.first body.to pages × (1041 ≤ length seen.old) }
    ensures { (result ≡ pages_once pages (blocks_in (slice body.first body.to (words_in bytes.now)))) × (length seen.new ≡ length seen.old) }
{
    let mut at = body.first;
    // A walk over regions (see the head of crate walking).
    while at < body.to {
        let lo = index_at(bytes, at);
        let length = index_at(bytes, at + 1);
        let n = index_at(bytes, at + 2);
        if !region_once(bytes, at + 3, n, lo, lo + length, seen) {
            return false;
        }
        at += 3 + 2 * n;
    }
    true
}

// Whether the bodies of all spaces are fine, and no page stands twice in a region.
pub fn bodies_fine(bytes: &[u8], spaces: usize, pages: usize, seen: &mut [u64]) -> bool
    requires { Rowed (length bytes.now) (words_in bytes.now) spaces × (pages ≤ 262144) × (1041 ≤ length seen.old) }
    ensures { (result ≡ bodies_fine pages (words_in bytes.now) 0 spaces) × (length seen.new ≡ length seen.old) }
{
    for i in 0..spaces {
        let body = body_at(bytes, i);
        if !body_fine(bytes, body, pages) {
            return false;
        }
        if !pages_once(bytes, body, pages, seen) {
            return false;
        }
    }
    true
}

// Puts the frames of the body into the set of those seen; false at the first that can't be.
fn see_body(bytes: &[u8], body: Body, frames: usize, seen: &mut [u64]) -> bool
    requires { WholeAt (length bytes.now) (words_in bytes.now) body.first body.to × (check_size (length seen.old) frames ≡ 0) }
    ensures { Saw frames (body_frames (slice body.first body.to (words_in bytes.now))) seen.old result seen.new }
{
    let mut at = body.first;
    // A walk over regions (see the head of crate walking).
    while at < body.to {
        let n = index_at(bytes, at + 2);
        if !all_new(bytes, at + 4, 2, n, frames, seen) {
            return false;
        }
        at += 3 + 2 * n;
    }
    true
}

// The same for the frames of every space's body.
fn see_spaces(bytes: &[u8], spaces: usize, frames: usize, seen: &mut [u64]) -> bool
    requires { Bodied (length bytes.now) (words_in bytes.now) spaces × (check_size (length seen.old) frames ≡ 0) }
    ensures { Saw frames (held_frames (words_in bytes.now) 0 spaces) seen.old result seen.new }
{
    for i in 0..spaces {
        let body = body_at(bytes, i);
        if !see_body(bytes, body, frames, seen) {
            return false;
        }
    }
    true
}

// Whether the frames of all bodies and of the pool are below `frames`, and each stands once.
pub fn frames_fine(bytes: &[u8], spaces: usize, frames: usize, seen: &mut [u64]) -> bool
    requires { Bodied (length bytes.now) (words_in bytes.now) spaces × (1 ≤ frames) × (frames ≤ 65536) × (1041 ≤ length seen.old) }
    ensures { (result ≡ all_new frames (λ _. false) (held_frames (words_in bytes.now) 0 spaces ++ part_in (words_in bytes.now) spaces))
        × (length seen.new ≡ length seen.old) }
{
    distinct::empty(seen, frames);
    if !see_spaces(bytes, spaces, frames, seen) {
        return false;
    }
    let pool = body_at(bytes, spaces);
    all_new(bytes, pool.first, 1, pool.to - pool.first, frames, seen)
}
