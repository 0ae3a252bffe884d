// Five numbers as a call, and the parts of the buffers that it is lent.
#![tactic(auto)]

ghost use Rattle.std.specs.Prelude.{◌≡◌, true, false, MatchOption, IfSome, slice_index};
ghost use Rattle.decoding.specs.Lending.{Inside};
ghost use Rattle.decoding.specs.Calls.{fits, inside, alone, byte_code, record_code, page_kind, decoded};

use machine::PageCall;
use requests::Request;

// The part of the byte buffer and the part of the records that a call is lent.
#[derive(Clone, Copy)]
pub struct Parts {
    pub from: usize,
    pub to: usize,
    pub first: usize,
    pub last: usize,
}

impl Parts {
    const NONE: Parts = Parts {
        from: 0,
        to: 0,
        first: 0,
        last: 0,
    };
}

// What five numbers say: a call, and what it is lent.
#[derive(Clone, Copy)]
pub struct Code {
    pub request: Request,
    pub parts: Parts,
}

// The number in 32 bits, if it has no more.
fn small(n: u64) -> Option<u32>
    ensures { MatchOption result (fits n ≡ false) (λ m. (fits n ≡ true) × (m ≡ n)) }
{
    u32::try_from(n).ok()
}

fn is_inside(first: usize, n: usize, whole: usize) -> bool
    ensures { result ≡ inside first n whole }
{
    first <= whole && n <= whole - first
}

// A call that is lent neither bytes nor records.
fn alone(request: Request) -> Code
    ensures { result ≡ alone request }
{
    Code {
        request,
        parts: Parts::NONE,
    }
}

// A call that is lent n bytes from a place on, if they lie within the whole.
fn on_bytes(request: Request, from: usize, n: usize, whole: usize) -> Option<Code>
    ensures { result ≡ byte_code request from n whole }
{
    if !is_inside(from, n, whole) {
        return None;
    }
    Some(Code {
        request,
        parts: Parts {
            from,
            to: from + n,
            ..Parts::NONE
        },
    })
}

// A call that is lent n numbers of the records from a place on, if they lie within the whole.
fn on_records(request: Request, first: usize, n: usize, whole: usize) -> Option<Code>
    ensures { result ≡ record_code request first n whole }
{
    if !is_inside(first, n, whole) {
        return None;
    }
    Some(Code {
        request,
        parts: Parts {
            first,
            last: first + n,
            ..Parts::NONE
        },
    })
}

// The page call of a kind.
fn page_kind(kind: u64) -> Option<PageCall>
    ensures { result ≡ page_kind kind }
{
    match kind {
        2 => Some(PageCall::Mark),
        3 => Some(PageCall::Drop),
        4 => Some(PageCall::Touch),
        5 => Some(PageCall::Look),
        6 => Some(PageCall::Release),
        14 => Some(PageCall::GiveBack),
        _ => None,
    }
}

// The call that five numbers are, if they are one, given how many bytes and how many numbers of records there are.
#[tactic(auto, unfolding(crate::specs::Calls::decoded))]
pub fn decode(code: &[u64; 5], bytes: usize, records: usize) -> Option<Code>
    ensures value { result ≡ decoded (slice_index code.now 0) (slice_index code.now 1) (slice_index code.now 2) (slice_index code.now 3) (slice_index code.now 4)
        bytes records }
    ensures inside { IfSome result (λ c. Inside c.parts bytes records) }
{
    let [kind, a, b, c, d] = *code;
    if let Some(call) = page_kind(kind) {
        return Some(alone(Request::Page(call, small(a)?, small(b)?)));
    }
    match kind {
        1 => Some(alone(Request::Start(small(a)?, small(b)?, small(c)?, small(d)?))),
        7 => Some(alone(Request::Free)),
        8 => Some(alone(Request::Translate(small(a)?, b as usize))),
        9 => on_bytes(
            Request::Read(small(a)?, b as usize),
            c as usize,
            d as usize,
            bytes,
        ),
        10 => on_bytes(
            Request::Write(small(a)?, b as usize),
            c as usize,
            d as usize,
            bytes,
        ),
        11 => on_records(Request::List(small(a)?), b as usize, c as usize, records),
        12 => on_bytes(Request::WriteMap, a as usize, b as usize, bytes),
        13 => on_bytes(Request::ReadMap, a as usize, b as usize, bytes),
        _ => None,
    }
}
