// The walk over a space's body in a map file that is to be read, and where the contents say that the body stands. Its words may be anything.
// Every walk over regions is a `while` loop: each region's head tells the step to the next, so no range has them, and an iterator would hide the step.
#![tactic(auto)]

ghost use Rattle.std.specs.Prelude.{◌≡◌, ◌+◌, ◌*◌, ◌≤◌, ◌<◌, length};
ghost use Rattle.std.proofs.Math.Seq.{slice};
ghost use Rattle.words.specs.Words.{words_in};
ghost use Rattle.machine.specs.MapRules.{all_within, fine_body};
ghost use Rattle.distinct.specs.Distinct.{picked, Reach};
ghost use Rattle.walking.specs.Rows.{RowIn};
ghost use Rattle.walking.specs.Walking.{BodyAt, Fronts};

use words::index_at;

// Where a body stands: its first word, and the first word after it.
#[derive(Clone, Copy)]
pub struct Body {
    pub first: usize,
    pub to: usize,
}

// A region's length and its number of entries, as its head tells them.
#[derive(Clone, Copy)]
pub struct Front {
    pub length: usize,
    pub entries: usize,
}

// Where the body of space i stands; that of the pool, for the row after all spaces.
pub fn body_at(bytes: &[u8], i: usize) -> Body
    requires { RowIn (length bytes.now) (words_in bytes.now) i }
    ensures { BodyAt (length bytes.now) (words_in bytes.now) i result }
{
    let first = index_at(bytes, 4 + 3 * i);
    let words = index_at(bytes, 4 + (3 * i + 1));
    Body {
        first,
        to: first + words,
    }
}

// The head at word `at` of a body that ends before word `to`, in a space of so many pages; none unless its region fits and starts at page `next`.
fn front_at(bytes: &[u8], at: usize, to: usize, next: usize, pages: usize) -> Option<Front>
    requires { (at < to) × (4 * to ≤ length bytes.now) × (next < 4294967296) × (pages ≤ 262144) }
    ensures { Fronts (words_in bytes.now) pages next at to result }
{
    if to - at < 3 {
        return None;
    }
    let entries = index_at(bytes, at + 2);
    if (to - at - 3) / 2 < entries {
        return None;
    }
    let start = index_at(bytes, at);
    if start != next {
        return None;
    }
    let length = index_at(bytes, at + 1);
    if length == 0 {
        return None;
    }
    if pages < next + length {
        return None;
    }
    Some(Front { length, entries })
}

// Whether the pages of n entries, the first at word `from`, lie from page lo on and below page hi.
fn pages_within(bytes: &[u8], from: usize, n: usize, lo: usize, hi: usize) -> bool
    requires { Reach (length bytes.now) from 2 n }
    ensures { result ≡ all_within lo hi (picked (words_in bytes.now) from 2 n) }
{
    for k in 0..n {
        let page = index_at(bytes, from + 2 * k);
        if !(lo..hi).contains(&page) {
            return false;
        }
    }
    true
}

// Whether a body's words are those of a space of so many pages, but for pages that stand twice.
pub fn body_fine(bytes: &[u8], body: Body, pages: usize) -> bool
    requires { (body.first ≤ body.to) × (4 * body.to ≤ length bytes.now) × (pages ≤ 262144) }
    ensures { result ≡ fine_body pages (slice body.first body.to (words_in bytes.now)) }
{
    if body.to <= body.first {
        return true;
    }
    let mut at = body.first;
    let mut next = index_at(bytes, at);
    // A walk over regions (see the head of this file).
    while at < body.to {
        let Some(front) = front_at(bytes, at, body.to, next, pages) else {
            return false;
        };
        if !pages_within(bytes, at + 3, front.entries, next, next + front.length) {
            return false;
        }
        at += 3 + 2 * front.entries;
        next += front.length;
    }
    next == pages
}
