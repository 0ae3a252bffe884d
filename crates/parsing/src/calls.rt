// Each call after its name, and the line as a whole. The number beside a call counts the bytes that a read asks for, a write has or a map may take, else 0.
ghost use Rattle.std.specs.Prelude.{◌≡◌, ℕ, ◌≤◌, length, drop, Some};
ghost use Rattle.parsing.specs.Grammar.{ended, start_line, pair_line, free_line, read_line, write_line, list_line, map_line, named, page_named, parsed};
ghost use Rattle.parsing.specs.Steps.{paired};
ghost use Rattle.requests.specs.declared.Request.{Request as RequestType};
ghost use Rattle.requests.specs.declared.Request.TheVariants as request_is;

use crate::LONGEST_MAP;
use fields::{begins_with, number_after_blank};
use hexing::hex_count;
use machine::PageCall;
use requests::Request;

// The most bytes that a read asks for.
const MOST_READ: u32 = 256;

// What a line says, if it ends here.
fn ended<T: Copy>(line: &[u8], at: usize, said: T) -> Option<T>
    requires { at ≤ length line.now }
    ensures { result ≡ ended (drop at line.now) (Some said) }
{
    (at == line.len()).then_some(said)
}

fn start_line(line: &[u8], at: usize) -> Option<(Request, usize)>
    requires { at ≤ length line.now }
    ensures { result ≡ start_line (drop at line.now) }
{
    let (s, at) = number_after_blank(line, at)?;
    let (n, at) = number_after_blank(line, at)?;
    let (f, at) = number_after_blank(line, at)?;
    let (p, at) = number_after_blank(line, at)?;
    ended(line, at, (Request::Start(s, n, f, p), 0))
}

// The two numbers from a place to the line's end, for the calls that have just these: one function, so that a program reads them in one place.
fn last_pair(line: &[u8], at: usize) -> Option<(u32, u32)>
    requires { at ≤ length line.now }
    ensures { (make : ℕ → ℕ → RequestType) → pair_line make (drop at line.now) ≡ paired make result }
{
    let (one, at) = number_after_blank(line, at)?;
    let (two, at) = number_after_blank(line, at)?;
    ended(line, at, (one, two))
}

fn page_line(line: &[u8], at: usize, call: PageCall) -> Option<(Request, usize)>
    requires { at ≤ length line.now }
    ensures { result ≡ pair_line (λ i b. request_is.Page call i b) (drop at line.now) }
{
    let (i, b) = last_pair(line, at)?;
    Some((Request::Page(call, i, b), 0))
}

fn free_line(line: &[u8], at: usize) -> Option<(Request, usize)>
    requires { at ≤ length line.now }
    ensures { result ≡ free_line (drop at line.now) }
{
    ended(line, at, (Request::Free, 0))
}

fn translate_line(line: &[u8], at: usize) -> Option<(Request, usize)>
    requires { at ≤ length line.now }
    ensures { result ≡ pair_line (λ i x. request_is.Translate i x) (drop at line.now) }
{
    let (i, x) = last_pair(line, at)?;
    Some((Request::Translate(i, x as usize), 0))
}

fn read_line(line: &[u8], at: usize) -> Option<(Request, usize)>
    requires { at ≤ length line.now }
    ensures { result ≡ read_line (drop at line.now) }
{
    let (i, at) = number_after_blank(line, at)?;
    let (x, at) = number_after_blank(line, at)?;
    let (n, at) = number_after_blank(line, at)?;
    if n > MOST_READ {
        return None;
    }
    ended(line, at, (Request::Read(i, x as usize), n as usize))
}

fn write_line(line: &[u8], at: usize) -> Option<(Request, usize)>
    requires { at ≤ length line.now }
    ensures { result ≡ write_line (drop at line.now) }
{
    let (i, at) = number_after_blank(line, at)?;
    let (x, at) = number_after_blank(line, at)?;
    let n = hex_count(line, at)?;
    Some((Request::Write(i, x as usize), n))
}

fn list_line(line: &[u8], at: usize) -> Option<(Request, usize)>
    requires { at ≤ length line.now }
    ensures { result ≡ list_line (drop at line.now) }
{
    let (i, at) = number_after_blank(line, at)?;
    ended(line, at, (Request::List(i), 0))
}

fn map_line(line: &[u8], at: usize) -> Option<(Request, usize)>
    requires { at ≤ length line.now }
    ensures { result ≡ map_line (drop at line.now) }
{
    ended(line, at, (Request::WriteMap, LONGEST_MAP))
}

// The call, and where its name ends, if the line begins with that name.
fn named(line: &[u8], word: &[u8], call: PageCall) -> Option<(PageCall, usize)>
    ensures { result ≡ named line.now word.now call }
{
    begins_with(line, word).then_some((call, word.len()))
}

// The page call that a line begins with the name of, and where the name ends.
fn page_named(line: &[u8]) -> Option<(PageCall, usize)>
    ensures { result ≡ page_named line.now }
{
    named(line, b"mark", PageCall::Mark)
        .or_else(|| named(line, b"drop", PageCall::Drop))
        .or_else(|| named(line, b"touch", PageCall::Touch))
        .or_else(|| named(line, b"look", PageCall::Look))
        .or_else(|| named(line, b"release", PageCall::Release))
        .or_else(|| named(line, b"give", PageCall::GiveBack))
}

// The call that a line is, or none.
#[tactic(auto, unfolding(crate::specs::Grammar::parsed))]
pub fn parse(line: &[u8]) -> Option<(Request, usize)>
    ensures { result ≡ parsed line.now }
{
    if begins_with(line, b"start") {
        return start_line(line, 5);
    }
    if let Some((call, at)) = page_named(line) {
        return page_line(line, at, call);
    }
    if begins_with(line, b"free") {
        return free_line(line, 4);
    }
    if begins_with(line, b"translate") {
        return translate_line(line, 9);
    }
    if begins_with(line, b"read") {
        return read_line(line, 4);
    }
    if begins_with(line, b"write") {
        return write_line(line, 5);
    }
    if begins_with(line, b"list") {
        return list_line(line, 4);
    }
    if begins_with(line, b"map") {
        return map_line(line, 3);
    }
    None
}
