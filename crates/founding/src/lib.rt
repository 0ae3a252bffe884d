// What stands before the first pair of a map that is read: its starts in the index, and its frames linked in the order of the file.
#![tactic(auto)]

ghost use Rattle.std.specs.Prelude.{◌≡◌, None, true, ◌∷◌, ◌++◌, ◌+◌, ◌*◌, ◌≤◌, ◌<◌, length};
ghost use Rattle.std.proofs.Math.Seq.{slice};
ghost use Rattle.sequence.specs.Lists.{Each};
ghost use Rattle.words.specs.Words.{words_in};
ghost use Rattle.distinct.specs.Distinct.{picked, Reach};
ghost use Rattle.machine.specs.Map.{whole_from, blocks_in, part_in};
ghost use Rattle.machine.specs.MapRules.{entry_frames, entries_of, held_frames};
ghost use Rattle.walking.specs.Rows.{Bodied};
ghost use Rattle.founding.specs.Chain.{laid, last_of};
ghost use Rattle.founding.specs.Founding.{starts_of, starts_in, Marked, LaidIs, LastWithin, Lays, LowFrames};

use checks::wide;
use walking::{Body, body_at};
use words::{index_at, word_at};

// ---- the starts

// Puts the starts of the body into the index of t places; its space begins at place lo.
fn mark_body(bytes: &[u8], body: Body, lo: usize, t: usize, index: &mut [u64])
    requires { (body.first ≤ body.to)
        × (4 * body.to ≤ length bytes.now)
        × (lo ≤ 262144)
        × (whole_from 0 (slice body.first body.to (words_in bytes.now)) ≡ true) }
    ensures { Marked t (starts_of lo (blocks_in (slice body.first body.to (words_in bytes.now)))) index.old index.new }
{
    let mut at = body.first;
    // A walk over regions (see the head of crate walking).
    while at < body.to {
        let p = lo + index_at(bytes, at);
        let _ = index::set(index, t, p);
        let n = index_at(bytes, at + 2);
        at += 3 + 2 * n;
    }
}

// Puts the starts of every body into the index.
pub fn mark_all(bytes: &[u8], spaces: usize, pages: usize, index: &mut [u64])
    requires { (spaces * pages ≤ 262144) × Bodied (length bytes.now) (words_in bytes.now) spaces }
    ensures { Marked (spaces * pages) (starts_in pages (words_in bytes.now) 0 spaces) index.old index.new }
{
    let t = spaces * pages;
    for i in 0..spaces {
        mark_body(bytes, body_at(bytes, i), i * pages, t, index);
    }
}

// ---- the frames

// Links n frames of a file, every so many words from word `from` on, behind the frame `last`; answers the last of them.
fn lay(bytes: &[u8], from: usize, step: usize, n: usize, last: u32, link: &mut [u32]) -> u32
    requires { Reach (length bytes.now) from step n × (step ≤ 4)
        × Each 0 (λ f. f < length link.old) (last ∷ picked (words_in bytes.now) from step n) }
    ensures { (result ≡ last_of last (picked (words_in bytes.now) from step n))
        × (link.new ≡ laid link.old last (picked (words_in bytes.now) from step n)) }
{
    let mut end = last;
    for k in 0..n {
        let e = wide(end);
        end = word_at(bytes, from + step * k);
        link[e] = end;
    }
    end
}

// The first and the last frame linked so far.
#[derive(Clone, Copy)]
pub struct Laid {
    pub first: u32,
    pub last: u32,
}

// Links n frames, every so many words from word `from` on, behind those before them.
fn lay_part(
    bytes: &[u8],
    from: usize,
    step: usize,
    n: usize,
    before: Option<Laid>,
    link: &mut [u32],
) -> Option<Laid>
    requires { Reach (length bytes.now) from step n
        × (step ≤ 4)
        × LastWithin before (length link.old)
        × Each 0 (λ f. f < length link.old) (picked (words_in bytes.now) from step n) }
    ensures { Lays before link.old (picked (words_in bytes.now) from step n) result link.new }
{
    if n == 0 {
        return before;
    }
    match before {
        Some(laid) => {
            let last = lay(bytes, from, step, n, laid.last, link);
            Some(Laid {
                first: laid.first,
                last,
            })
        }
        None => {
            let first = word_at(bytes, from);
            let last = lay(bytes, from + step, step, n - 1, first, link);
            Some(Laid { first, last })
        }
    }
}

// Links the frames of the body behind those before them.
fn lay_body(bytes: &[u8], body: Body, before: Option<Laid>, link: &mut [u32]) -> Option<Laid>
    requires { (body.first ≤ body.to)
        × (4 * body.to ≤ length bytes.now)
        × (whole_from 0 (slice body.first body.to (words_in bytes.now)) ≡ true)
        × LastWithin before (length link.old)
        × Each 0 (λ f. f < length link.old) (entry_frames (entries_of (blocks_in (slice body.first body.to (words_in bytes.now))))) }
    ensures { Lays before link.old (entry_frames (entries_of (blocks_in (slice body.first body.to (words_in bytes.now))))) result link.new }
{
    let mut laid = before;
    let mut at = body.first;
    // A walk over regions (see the head of crate walking).
    while at < body.to {
        let n = index_at(bytes, at + 2);
        laid = lay_part(bytes, at + 4, 2, n, laid, link);
        at += 3 + 2 * n;
    }
    laid
}

// Links the frames of every space's body, in the order of the file.
fn lay_spaces(bytes: &[u8], spaces: usize, link: &mut [u32]) -> Option<Laid>
    requires { Bodied (length bytes.now) (words_in bytes.now) spaces × LowFrames (length link.old) (words_in bytes.now) spaces }
    ensures { Lays None link.old (held_frames (words_in bytes.now) 0 spaces) result link.new }
{
    let mut laid = None;
    for i in 0..spaces {
        laid = lay_body(bytes, body_at(bytes, i), laid, link);
    }
    laid
}

// Links every frame of a file, in its order; answers the first and the last, or none where there are no frames.
pub fn lay_all(bytes: &[u8], spaces: usize, link: &mut [u32]) -> Option<Laid>
    requires { Bodied (length bytes.now) (words_in bytes.now) spaces × LowFrames (length link.old) (words_in bytes.now) spaces }
    ensures { LaidIs link.old
        (held_frames (words_in bytes.now) 0 spaces ++ part_in (words_in bytes.now) spaces) result link.new }
{
    let held = lay_spaces(bytes, spaces, link);
    let pool = body_at(bytes, spaces);
    lay_part(bytes, pool.first, 1, pool.to - pool.first, held, link)
}
