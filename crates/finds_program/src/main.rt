// Plays finds on a lent buffer and writes a line for each call: document 01's sizes and finds, the
// refusals, then thousands of calls on sets of many kinds. tests/finds/expected.rs writes the same
// lines from the definition.
#![tactic(auto)]

mod calls;
mod garbage;
mod line;
mod sets;

use line::Line;
use sets::{KINDS, Kind};

const SIZES: [usize; 10] = [1, 63, 64, 65, 4_095, 4_096, 4_097, 65_536, 262_143, 262_144];

const BORDERS: [usize; 12] = [0, 1, 62, 63, 64, 65, 127, 128, 4_094, 4_095, 4_096, 4_097];

// Document 01's sizes.
fn document_sizes() {
    for t in [64, 65, 4_097, 262_144] {
        calls::size(t);
    }
}

// Finds at places in the index of one start.
fn one_start(index: &mut [u64], t: usize, start: usize, places: [usize; 3]) {
    calls::prepare(index, t);
    calls::set(index, t, start);
    for p in places {
        calls::find(index, t, p);
    }
}

// Document 01's finds.
fn document_finds(index: &mut [u64]) {
    calls::prepare(index, 64);
    calls::find(index, 64, 5);
    one_start(index, 4_096, 0, [63, 64, 4_095]);
    one_start(index, 4_097, 0, [63, 64, 4_096]);
    one_start(index, 4_096, 70, [70, 69, 128]);
}

// Says whether the buffer still has the sum that it had before.
fn buffer(index: &[u64], before: u64) {
    if garbage::sum(index, 0) == before {
        io::write_all(1, b"buffer same\n");
    } else {
        io::write_all(1, b"buffer changed\n");
    }
}

// Every call at place p.
fn each_call(index: &mut [u64], t: usize, p: usize) {
    calls::prepare(index, t);
    calls::set(index, t, p);
    calls::is_set(index, t, p);
    calls::find(index, t, p);
    calls::clear(index, t, p);
    calls::is_set(index, t, p);
    calls::find(index, t, p);
}

// Every call at a size that is refused.
fn refused_size(index: &mut [u64], t: usize) {
    let before = garbage::sum(index, 0);
    calls::size(t);
    each_call(index, t, 0);
    buffer(index, before);
}

// Every call on the first n words only.
fn lent(index: &mut [u64], n: usize, t: usize, p: usize) {
    if let Some(front) = index.get_mut(..n) {
        each_call(front, t, p);
    }
}

// A buffer one word too short, one just long enough, and places that are not below t.
fn limits(index: &mut [u64], t: usize) {
    let n = calls::words(t);
    let before = garbage::sum(index, 0);
    lent(index, n.saturating_sub(1), t, 0);
    buffer(index, before);
    lent(index, n, t, t.saturating_sub(1));
    lent(index, n, t, t);
    lent(index, n, t, usize::MAX);
}

// The k-th place to look at; x is a place drawn below t.
fn place(t: usize, k: usize, x: usize) -> usize {
    let word = x / 64 * 64;
    let block = x / 4_096 * 4_096;
    match k {
        0..=11 => BORDERS[k],
        12 => t.saturating_sub(1),
        13 => t,
        14 => t / 2,
        15 => (t / 2).saturating_sub(1),
        16..=19 => word,
        20..=23 => word.saturating_sub(1),
        24..=27 => block,
        28..=31 => block.saturating_sub(1),
        _ => x,
    }
}

// Finds at forty places.
fn finds(index: &[u64], t: usize, kind: Kind) {
    let mut x = sets::seed(t, kind, 1);
    for k in 0..40 {
        x = sets::next(x);
        calls::find(index, t, place(t, k, sets::drawn(x, t)));
    }
}

// Place p put the other way, then back.
fn there_and_back(index: &mut [u64], t: usize, p: usize, member: bool) {
    calls::put(index, t, p, !member);
    calls::find(index, t, p);
    calls::put(index, t, p, member);
    calls::find(index, t, p);
}

// Changes at place p that leave the buffer as it was; the first changes no word.
fn changes(index: &mut [u64], t: usize, p: usize) {
    let before = garbage::sum(index, 0);
    let member = calls::is_set(index, t, p);
    calls::put(index, t, p, member);
    buffer(index, before);
    there_and_back(index, t, p, member);
    buffer(index, before);
}

// One set of places: the finds on it, and changes at a place drawn for it and at another.
fn play_set(index: &mut [u64], t: usize, kind: Kind) {
    Line::new(b"T ", t).and(b" set ", kind as usize).end(b"");
    sets::make(index, t, kind);
    finds(index, t, kind);
    changes(index, t, sets::first(t, kind, 0));
    changes(index, t, sets::first(t, kind, 1));
}

// Every kind of set at one size.
fn play_sets(index: &mut [u64], t: usize) {
    for kind in KINDS {
        play_set(index, t, kind);
    }
}

// The number and the sum of the words from word n on.
fn excess(index: &[u64], n: usize) {
    let line = Line::new(b"excess words ", index.len().saturating_sub(n));
    line.and(b" sum ", garbage::sum(index, n) as usize).end(b"");
}

// One size; the words beyond its index stay as they were.
fn play_size(index: &mut [u64], t: usize) {
    garbage::fill(index);
    calls::size(t);
    limits(index, t);
    play_sets(index, t);
    excess(index, calls::words(t));
}

fn play_sizes(index: &mut [u64]) {
    for t in SIZES {
        play_size(index, t);
    }
}

fn main() {
    let mut index = [0u64; 4200];
    garbage::fill(&mut index);
    document_sizes();
    document_finds(&mut index);
    for t in [0, 262_145, usize::MAX] {
        refused_size(&mut index, t);
    }
    play_sizes(&mut index);
}
