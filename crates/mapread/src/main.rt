// Reads a map file from standard input into tables full of garbage, and writes `no` and the number of its refusal, or `ok`, a blank and the map that
// is written back, in hex. There is room for 4,096 places and as many frames.
// With a space as its argument it reads the contents alone, of a map of any size, and writes `pages` and how many the space has, or `no` and the number.
#![tactic(auto)]

ghost use Rattle.std.specs.Prelude.{◌≤◌, length};

use digits::Text;
use fields::{BLANK, number_after_blank};
use memory::{Head, no_start};
use pager::{how_full, read_map, write_map};
use refusals::Refusal;
use std::env::{Env, FillError};

const PLACES: usize = 4_096;

const FRAMES: usize = 4_096;

const INDEX: usize = 65;

// One byte more than the longest map that there is room for has, so that a longer file is seen to be longer.
const FILE: usize = 82_717;

// The contents of 64 spaces, the longest that there are.
const CONTENTS: usize = 796;

// Two digits a byte.
const TEXT: usize = 4_096;

const PART: usize = 2_048;

// Garbage: numbers that could be places or frames.
fn litter(table: &mut [u32], step: u32) {
    let mut value = step;
    for place in table {
        value = (value % 4_096 * 37 + step % 1_024) % 4_096;
        *place = value;
    }
}

// The first n bytes of a file in hex, part by part.
fn print_file(file: &[u8], n: usize)
    requires { n ≤ length file.now }
{
    let mut room = [0u8; TEXT];
    for part in file[..n].chunks(PART) {
        let mut text = Text {
            out: &mut room,
            at: 0,
        };
        text.put_hex(part);
        let end = text.at;
        io::write_all(1, &room[..end]);
    }
}

fn print_refused(no: Refusal) {
    io::write_all(1, b"no ");
    io::print_decimal(1, u64::from(no.number()));
    io::write_all(1, b"\n");
}

// The map of what was read, in a buffer of its own.
fn print_again(
    head: Head,
    index: &[u64],
    count: &[u32],
    table: &[u32],
    stack: &[u32],
    link: &[u32],
) {
    let mut file = [0xa5u8; FILE];
    match write_map(head, index, count, table, stack, link, &mut file) {
        Err(no) => print_refused(no),
        Ok(n) => {
            let all = (n as usize).min(FILE);
            io::write_all(1, b"ok ");
            print_file(&file, all);
            io::write_all(1, b"\n");
        }
    }
}

// The file read and written back.
fn tell_file() {
    let mut file = [0u8; FILE];
    let mut index = [0x5555_5555_5555_5555u64; INDEX];
    let mut count = [0u32; PLACES];
    let mut table = [0u32; PLACES];
    let mut helper = [0u32; PLACES];
    let mut stack = [0u32; PLACES];
    let mut cache = [0u32; PLACES];
    let mut link = [0u32; FRAMES];
    litter(&mut count, 3);
    litter(&mut table, 5);
    litter(&mut helper, 7);
    litter(&mut stack, 11);
    litter(&mut cache, 13);
    litter(&mut link, 17);
    let n = io::read_full(0, &mut file);
    let out = read_map(
        no_start(),
        &file[..n],
        &mut index,
        &mut count,
        &mut table,
        &mut helper,
        &mut stack,
        &mut cache,
        &mut link,
    );
    match out.answer {
        Err(no) => print_refused(no),
        Ok(()) => print_again(out.head, &index, &count, &table, &stack, &link),
    }
}

fn print_fullness(space: u32) {
    let mut contents = [0u8; CONTENTS];
    let n = io::read_full(0, &mut contents);
    match how_full(space, &contents[..n]) {
        Err(no) => print_refused(no),
        Ok(pages) => {
            io::write_all(1, b"pages ");
            io::print_decimal(1, u64::from(pages));
            io::write_all(1, b"\n");
        }
    }
}

fn print_usage() {
    io::write_all(
        2,
        b"mapread: usage: mapread < FILE, or mapread SPACE < FILE with the number of a space, at most nine digits\n",
    );
}

// How full the space is whose number follows a blank in a text, and nothing else.
fn tell_space(text: &[u8]) {
    match number_after_blank(text, 0) {
        Some((space, end)) if end == text.len() => print_fullness(space),
        _ => print_usage(),
    }
}

// The bytes of the argument in the room; 0 of one that is longer.
fn read_argument(rt: &impl Env, room: &mut [u8]) -> usize
    ensures { result ≤ length room.new }
{
    rt.arg(1, room).unwrap_or(0)
}

// The argument is a number as a session's are, of one to nine digits.
fn tell_fullness(rt: &impl Env) {
    let mut text = [BLANK; 10];
    let n = read_argument(rt, &mut text[1..]);
    let end = n + 1;
    tell_space(&text[..end]);
}

// Whether the command line has an argument k, of whatever length; the program's own name is number 0.
fn is_given(rt: &impl Env, k: usize) -> bool {
    let mut room = [0u8; 1];
    !matches!(rt.arg(k, &mut room), Err(FillError::NotPresent))
}

fn main(rt: HostRuntime) {
    if !is_given(&rt, 1) {
        tell_file();
        return;
    }
    if !is_given(&rt, 2) {
        tell_fullness(&rt);
        return;
    }
    print_usage();
}
