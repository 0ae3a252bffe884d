// Judging a map file: whether it describes a state, told by its bytes alone. Nothing is stored but in a local buffer.
#![tactic(auto)]

ghost use Rattle.std.specs.Prelude.{◌≡◌, true, suc, ◌*◌, ◌≤◌, length};
ghost use Rattle.std.proofs.Math.Seq.{slice};
ghost use Rattle.words.specs.Words.{words_in};
ghost use Rattle.machine.specs.Map.{first_body, blocks_in, whole_from};
ghost use Rattle.machine.specs.MapRules.{entries_of, rules_ok, file_ok};
ghost use Rattle.walking.specs.Rows.{Bodied};
ghost use Rattle.judging.specs.Contents.{ContentsAre, Sized, rows_tile, counts_from, told_from};

use bodies::{bodies_fine, frames_fine};
use checks::{sizes_ok, wide};
use contents::{count_at, is_whole};
use machine::PageSize;
use memory::Head;
use walking::{Body, body_at};
use words::{index_at, word_at};

// The sizes that a file's contents tell, as the head of an empty pool; none unless they are within the limits and all of the contents is there.
pub fn contents_of(bytes: &[u8]) -> Option<Head>
    ensures { ContentsAre bytes.now result }
{
    if bytes.len() < 16 {
        return None;
    }
    let spaces = word_at(bytes, 0);
    let pages = word_at(bytes, 1);
    let frames = word_at(bytes, 2);
    let Ok(page) = PageSize::of(word_at(bytes, 3)) else {
        return None;
    };
    let head = Head {
        spaces,
        pages,
        frames,
        page,
        first: 0,
        many: 0,
        fresh: 0,
    };
    if !sizes_ok(head) {
        return None;
    }
    if !is_whole(bytes) {
        return None;
    }
    Some(head)
}

// Whether the bodies of the spaces and the pool follow the contents in order, with no gaps and no word after the last.
pub fn rows_tile(bytes: &[u8], spaces: usize) -> bool
    requires { (spaces ≤ 64) × (4 * first_body spaces ≤ length bytes.now) }
    ensures { result ≡ rows_tile (words_in bytes.now) spaces }
{
    let mut at = 4 + 3 * (spaces + 1);
    for i in 0..=spaces {
        if index_at(bytes, 4 + 3 * i) != at {
            return false;
        }
        at += index_at(bytes, 4 + (3 * i + 1));
    }
    at == bytes.len() / 4
}

// The third words of all rows, added up.
fn frames_told(bytes: &[u8], spaces: usize) -> usize
    requires { (spaces ≤ 64) × (4 * first_body spaces ≤ length bytes.now) }
    ensures { result ≡ told_from (words_in bytes.now) 0 (suc spaces) }
{
    let mut told = 0;
    for i in 0..=spaces {
        told += count_at(bytes, i);
    }
    told
}

// The pairs of the body, by the heads of its regions alone.
fn pairs_of(bytes: &[u8], body: Body) -> usize
    requires { (body.first ≤ body.to) × (4 * body.to ≤ length bytes.now) × (whole_from 0 (slice body.first body.to (words_in bytes.now)) ≡ true) }
    ensures { result ≡ length (entries_of (blocks_in (slice body.first body.to (words_in bytes.now)))) }
{
    let mut at = body.first;
    let mut pairs = 0;
    // A walk over regions (see the head of crate walking).
    while at < body.to {
        let n = index_at(bytes, at + 2);
        pairs += n;
        at += 3 + 2 * n;
    }
    pairs
}

// Whether each space's third word is the number of pairs of its body, and the pool's its length.
pub fn counts_fine(bytes: &[u8], spaces: usize) -> bool
    requires { Bodied (length bytes.now) (words_in bytes.now) spaces }
    ensures { result ≡ counts_from (words_in bytes.now) 0 spaces }
{
    for i in 0..spaces {
        let pairs = pairs_of(bytes, body_at(bytes, i));
        if count_at(bytes, i) != pairs {
            return false;
        }
    }
    let pool = body_at(bytes, spaces);
    count_at(bytes, spaces) == pool.to - pool.first
}

// Whether a file's words keep the rules, its contents being ok.
fn rules_kept(bytes: &[u8], spaces: usize, pages: usize, frames: usize) -> bool
    requires { Sized bytes.now spaces pages frames }
    ensures { result ≡ rules_ok (words_in bytes.now) }
{
    if !rows_tile(bytes, spaces) {
        return false;
    }
    let mut seen = [0u64; 1041];
    if !bodies_fine(bytes, spaces, pages, &mut seen) {
        return false;
    }
    if !counts_fine(bytes, spaces) {
        return false;
    }
    if frames_told(bytes, spaces) != frames {
        return false;
    }
    frames_fine(bytes, spaces, frames, &mut seen)
}

// Whether the bytes are those of a map file that describes a state.
pub fn inspect(bytes: &[u8]) -> bool
    ensures { result ≡ file_ok bytes.now }
{
    if bytes.len() % 4 != 0 {
        return false;
    }
    let Some(head) = contents_of(bytes) else {
        return false;
    };
    rules_kept(
        bytes,
        wide(head.spaces),
        wide(head.pages),
        wide(head.frames),
    )
}
