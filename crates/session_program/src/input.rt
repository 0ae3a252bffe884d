// Lines from standard input.
ghost use Rattle.std.specs.Prelude.{◌+◌, ◌<◌, ◌≤◌, length};

use std::io::{Read, Stdin};

// Reads after the first `kept` bytes; answers how many there are then.
pub(crate) fn read_more(stdin: Stdin, input: &mut [u8], kept: usize) -> usize
    ensures { kept ≤ result }
{
    if input.len() <= kept {
        return kept;
    }
    kept + read_some(stdin, &mut input[kept..])
}

// One read; one that fails gives nothing, as at the input's end.
fn read_some(stdin: Stdin, room: &mut [u8]) -> usize
    ensures { result ≤ length room.old }
{
    let mut reader = stdin;
    reader.read(room).unwrap_or(0)
}

// A byte as a word; so its bound is asked for once.
fn wide(b: u8) -> u64 {
    b as u64
}

// Eight bytes as one word, the first of them the lowest.
fn word_at(input: &[u8], i: usize) -> u64
    requires { i + 8 ≤ length input.now }
{
    wide(input[i])
        | wide(input[i + 1]) << 8
        | wide(input[i + 2]) << 16
        | wide(input[i + 3]) << 24
        | wide(input[i + 4]) << 32
        | wide(input[i + 5]) << 40
        | wide(input[i + 6]) << 48
        | wide(input[i + 7]) << 56
}

// Not 0 if a byte of the word is a line feed; the lowest bit that is set is then the top bit of the first that is one.
fn feeds_in(word: u64) -> u64 {
    let x = word ^ 0x0a0a_0a0a_0a0a_0a0a;
    x.wrapping_sub(0x0101_0101_0101_0101) & !x & 0x8080_8080_8080_8080
}

// The byte that has the lowest bit that is set.
fn lowest_byte(word: u64) -> usize
    ensures { result ≤ 8 }
{
    word.trailing_zeros() as usize / 8
}

// Past the last place where a whole word begins before `stop`.
fn words_end(stop: usize) -> usize
    ensures { 0 < result → result + 7 ≤ stop }
{
    if stop < 8 { 0 } else { stop - 7 }
}

// Where the words without a line feed end, from `from` on: at the one that has it, or where fewer bytes than a word are left.
fn pass_words(input: &[u8], from: usize, stop: usize) -> usize
    requires { stop ≤ length input.now }
    ensures { from ≤ result }
{
    let end = words_end(stop);
    let mut i = from;
    // A `while`: a step is a word, and the last bytes are fewer.
    while i < end {
        let feeds = feeds_in(word_at(input, i));
        if feeds != 0 {
            return i + lowest_byte(feeds);
        }
        i += 8;
    }
    i
}

// Where the line that begins at `from` ends: at its line feed, or at n. Words are only passed over; the byte where that ends is looked at.
fn line_end(input: &[u8], from: usize, n: usize) -> usize
    ensures { from ≤ n → from ≤ result }
{
    let stop = n.min(input.len());
    for i in pass_words(input, from, stop)..stop {
        if input[i] == b'\n' {
            return i;
        }
    }
    n
}

// A line from its first byte to before its end, where the next one begins, and whether it is whole.
#[derive(Drop)]
pub struct Line {
    pub first: usize,
    pub end: usize,
    pub next: usize,
    pub is_whole: bool,
}

fn first_of(is_long: bool, from: usize, end: usize) -> usize
    requires { from ≤ end }
    ensures { result ≤ end }
{
    if is_long { end } else { from }
}

// The line that begins at `from`. One of which more came than is kept is a bad line, as an empty one is.
pub(crate) fn line_at(input: &[u8], from: usize, n: usize, is_last: bool, is_long: bool) -> Line
    ensures { (result.first ≤ result.end) × (result.end ≤ length input.now) × (from < n → from < result.next) }
{
    let end = line_end(input, from, n);
    if input.len() < end || end < from {
        return Line {
            first: 0,
            end: 0,
            next: n,
            is_whole: false,
        };
    }
    let first = first_of(is_long, from, end);
    if end < n {
        return Line {
            first,
            end,
            next: end + 1,
            is_whole: true,
        };
    }
    Line {
        first,
        end,
        next: n,
        is_whole: is_last,
    }
}

// Moves the bytes from `from` to before n to the front; answers how many they are.
fn keep(input: &mut [u8], from: usize, n: usize) -> usize {
    let stop = n.min(input.len());
    if 0 < from && from < stop {
        input.copy_within(from..stop, 0);
    }
    n.saturating_sub(from)
}

// What is kept of a line that isn't whole, and whether more of it came than is kept.
#[derive(Drop)]
pub struct Rest {
    pub kept: usize,
    pub is_long: bool,
}

// Keeps what is left of the first n bytes; a line that fills the buffer is longer than any call.
pub(crate) fn keep_rest(input: &mut [u8], from: usize, n: usize, is_long: bool) -> Rest {
    let kept = keep(input, from, n);
    if input.len() <= kept {
        return Rest {
            kept: 0,
            is_long: true,
        };
    }
    Rest { kept, is_long }
}
