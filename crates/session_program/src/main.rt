// Plays a script of calls from standard input, a line each, and answers every line at once: document 01,
// "One session whole". RAM is zeros at first; the five tables that start doesn't prepare hold garbage.
#![tactic(auto)]

mod answering;
mod input;

use answering::{Output, answer_lines};
use input::{keep_rest, read_more};
use memory::no_start;
use session::LONGEST_MAP;
use std::io::{Print, Stdin};
use std::process::ExitCode;

// The bytes of a read and of the answers to it, and the memory that the largest start needs.
const INPUT: usize = 65_536;

const OUT: usize = 131_072;

const BYTES: usize = LONGEST_MAP;

const RECORDS: usize = 3_072;

const INDEX: usize = 17;

const PLACES: usize = 1_024;

const FRAMES: usize = 128;

const RAM: usize = 32_768;

// The status that a shell gives a program whose pipe has no reader any more.
const CLOSED: u8 = 141;

// Garbage: numbers that could be places or frames.
fn litter(table: &mut [u32], step: u32) {
    let mut value = step;
    for place in table {
        value = (value % 1_024 * 37 + step % 1_024) % 1_024;
        *place = value;
    }
}

// How many bytes are to be answered: all n; a last line that was too long to be kept is one byte, whatever it is.
fn lines_end(n: usize, is_last: bool, is_long: bool) -> usize {
    if is_last && is_long && n == 0 {
        return 1;
    }
    n
}

// Reads, answers the lines that are whole and keeps what is left, until the input ends or answers are lost; a proved loop has to end,
// and no input uses up so many turns.
fn run(
    rt: &(impl Print + Eprint),
    stdin: Stdin,
    input: &mut [u8; INPUT],
    out: &mut [u8; OUT],
    buffer: &mut [u8; BYTES],
    records: &mut [u32; RECORDS],
    index: &mut [u64; INDEX],
    count: &mut [u32; PLACES],
    table: &mut [u32; PLACES],
    helper: &mut [u32; PLACES],
    stack: &mut [u32; PLACES],
    cache: &mut [u32; PLACES],
    link: &mut [u32; FRAMES],
    ram: &mut [u8; RAM],
) -> Output {
    let mut head = no_start();
    let mut kept = 0;
    let mut is_long = false;
    for _ in 0..u64::MAX {
        let n = read_more(stdin, input, kept);
        let is_last = n == kept;
        let done = answer_lines(
            rt,
            head,
            input,
            lines_end(n, is_last, is_long),
            is_last,
            is_long,
            out,
            buffer,
            records,
            index,
            count,
            table,
            helper,
            stack,
            cache,
            link,
            ram,
        );
        let next = done.head;
        head = next;
        let rest = keep_rest(input, done.from, n, done.is_long);
        kept = rest.kept;
        is_long = rest.is_long;
        if is_last || done.output != Output::Open {
            return done.output;
        }
    }
    Output::Open
}

fn main(rt: HostRuntime) -> ExitCode {
    let mut input = [0u8; INPUT];
    let mut out = [0u8; OUT];
    let mut buffer = [0u8; BYTES];
    let mut records = [0u32; RECORDS];
    let mut index = [0u64; INDEX];
    let mut count = [0u32; PLACES];
    let mut table = [0u32; PLACES];
    let mut helper = [0u32; PLACES];
    let mut stack = [0u32; PLACES];
    let mut cache = [0u32; PLACES];
    let mut link = [0u32; FRAMES];
    let mut ram = [0u8; RAM];
    litter(&mut table, 5);
    litter(&mut helper, 7);
    litter(&mut stack, 11);
    litter(&mut cache, 13);
    litter(&mut link, 17);
    let output = run(
        &rt,
        rt.stdin(),
        &mut input,
        &mut out,
        &mut buffer,
        &mut records,
        &mut index,
        &mut count,
        &mut table,
        &mut helper,
        &mut stack,
        &mut cache,
        &mut link,
        &mut ram,
    );
    match output {
        Output::Closed => ExitCode::from(CLOSED),
        _ => ExitCode::SUCCESS,
    }
}
