// A call as a request, its answer as a reply, and a reply as three numbers: shared by all that speaks of calls in general.
#![tactic(auto)]

ghost use Rattle.std.specs.Prelude.{List, [], ◌∷◌, ◌≡◌, ℕ, length, take};
ghost use Rattle.machine.specs.Machine as machine;
ghost use Rattle.machine.specs.Answers.{says_of, refusal_says, refused_after_says, touched_tells, looked_tells};
ghost use Rattle.machine.specs.declared.Region.{Region};
ghost use Rattle.promise.specs.Filled.{records_in, records_filled, bytes_filled};
ghost use Rattle.requests.specs.Requests.{replied};
ghost use Rattle.requests.specs.Codes.{encoded, numbers_of};

use machine::{Looked, PageCall, RefusedAfter, Touched};
use refusals::Refusal;

// A call with its numbers. Read, write and the two calls with a map have all of the byte buffer, list all of the records.
#[derive(Clone, Copy)]
pub enum Request {
    Start(u32, u32, u32, u32),
    Page(PageCall, u32, u32),
    Free,
    Translate(u32, usize),
    Read(u32, usize),
    Write(u32, usize),
    List(u32),
    WriteMap,
    ReadMap,
}

// What a call answered. The bytes of a read are the byte buffer, a map stands at its front, the regions at the front of the records.
#[derive(Clone, Copy)]
pub enum Reply {
    Done,
    Old(u32),
    New(u32, u32),
    Resident(u32),
    Absent(u32),
    Pages(u32),
    Frames(u32),
    At(usize),
    Bytes,
    Regions(u32),
    Map(u32),
    Refused(u32),
    RefusedAfter(u32, u32),
    Handed,
}

// A reply as numbers: its kind or the number of its refusal, the index words read, and a value.
#[repr(C)]
#[derive(Clone, Copy)]
pub struct Answer {
    pub kind: u32,
    pub words: u32,
    pub value: u64,
}

// ---- the answer of each kind of call as a reply

// Why a call is refused: by name, or by any number; of touch and look with the index words read.
pub trait Reason {
    // what it answers
    ghost says: { Self → machine.Answer };

    fn reply(self) -> Reply
        ensures { (buffer records : List ℕ) → replied result buffer records ≡ says self };
}

impl Reason for Refusal {
    ghost says = { refusal_says };

    fn reply(self) -> Reply {
        Reply::Refused(self.number())
    }
}

impl Reason for u32 {
    ghost says = { machine.refused };

    fn reply(self) -> Reply {
        Reply::Refused(self)
    }
}

impl Reason for RefusedAfter {
    ghost says = { refused_after_says };

    fn reply(self) -> Reply {
        Reply::RefusedAfter(self.refusal.number(), self.words)
    }
}

impl Reason for (u32, u32) {
    ghost says = { λ e. machine.refused_after e.0 e.1 };

    fn reply(self) -> Reply {
        Reply::RefusedAfter(self.0, self.1)
    }
}

pub fn of_done<R: Reason>(a: Result<(), R>) -> Reply
    ensures { (buffer records : List ℕ) → replied result buffer records ≡ says_of R.says (λ _. machine.done) a }
{
    a.map_or_else(R::reply, |()| Reply::Done)
}

pub fn of_touched<R: Reason>(a: Result<Touched, R>) -> Reply
    ensures { (buffer records : List ℕ) → replied result buffer records ≡ says_of R.says touched_tells a }
{
    match a {
        Ok(Touched::Old(f)) => Reply::Old(f),
        Ok(Touched::New(f, w)) => Reply::New(f, w),
        Err(no) => no.reply(),
    }
}

pub fn of_looked<R: Reason>(a: Result<Looked, R>) -> Reply
    ensures { (buffer records : List ℕ) → replied result buffer records ≡ says_of R.says looked_tells a }
{
    match a {
        Ok(Looked::Resident(f)) => Reply::Resident(f),
        Ok(Looked::Absent(w)) => Reply::Absent(w),
        Err(no) => no.reply(),
    }
}

pub fn of_released<R: Reason>(a: Result<u32, R>) -> Reply
    ensures { (buffer records : List ℕ) → replied result buffer records ≡ says_of R.says machine.pages a }
{
    a.map_or_else(R::reply, Reply::Pages)
}

pub fn of_given_back<R: Reason>(a: Result<(), R>) -> Reply
    ensures { (buffer records : List ℕ) → replied result buffer records ≡ says_of R.says (λ _. machine.handed) a }
{
    a.map_or_else(R::reply, |()| Reply::Handed)
}

pub fn of_free<R: Reason>(a: Result<u32, R>) -> Reply
    ensures { (buffer records : List ℕ) → replied result buffer records ≡ says_of R.says machine.frames a }
{
    a.map_or_else(R::reply, Reply::Frames)
}

pub fn of_translated<R: Reason>(a: Result<usize, R>) -> Reply
    ensures { (buffer records : List ℕ) → replied result buffer records ≡ says_of R.says machine.at a }
{
    a.map_or_else(R::reply, Reply::At)
}

pub fn of_copied<R: Reason>(a: Result<(), R>) -> Reply
    ensures { (buffer records : List ℕ) → replied result buffer records ≡ says_of R.says (λ _. machine.bytes buffer) a }
{
    a.map_or_else(R::reply, |()| Reply::Bytes)
}

pub fn of_listed<R: Reason>(a: Result<u32, R>) -> Reply
    ensures { (buffer records : List ℕ) →
        replied result buffer records ≡ says_of R.says (λ _. machine.regions (records_in (records_filled a) records)) a }
{
    a.map_or_else(R::reply, Reply::Regions)
}

pub fn of_written<R: Reason>(a: Result<u32, R>) -> Reply
    ensures { (buffer records : List ℕ) → replied result buffer records ≡ says_of R.says (λ _. machine.map_file (take (bytes_filled a) buffer)) a }
{
    a.map_or_else(R::reply, Reply::Map)
}

pub fn of_fullness<R: Reason>(full: Result<u32, R>) -> Reply
    ensures { (buffer records : List ℕ) → replied result buffer records ≡ says_of R.says machine.pages full }
{
    full.map_or_else(R::reply, Reply::Pages)
}

// ---- a reply as numbers

fn numbers(kind: u32, value: u64, words: u32) -> Answer
    ensures { numbers_of result ≡ kind ∷ value ∷ words ∷ [] }
{
    Answer { kind, words, value }
}

// How many of the first k bytes there are in a buffer of n bytes.
fn there(k: u32, n: usize) -> u64
    ensures { (buffer : List ℕ) → length buffer ≡ n → length (take k buffer) ≡ result }
{
    u64::from(k).min(n as u64)
}

// A reply with a byte buffer of n bytes.
pub fn encode(reply: Reply, n: usize) -> Answer
    ensures { (buffer records : List ℕ) → length buffer ≡ n → numbers_of result ≡ encoded (replied reply buffer records) }
{
    match reply {
        Reply::Done => numbers(16, 0, 0),
        Reply::Old(f) => numbers(17, u64::from(f), 0),
        Reply::New(f, w) => numbers(18, u64::from(f), w),
        Reply::Resident(f) => numbers(19, u64::from(f), 0),
        Reply::Absent(w) => numbers(20, 0, w),
        Reply::Pages(n) => numbers(21, u64::from(n), 0),
        Reply::Frames(n) => numbers(22, u64::from(n), 0),
        Reply::At(p) => numbers(23, p as u64, 0),
        Reply::Bytes => numbers(24, n as u64, 0),
        Reply::Regions(n) => numbers(25, u64::from(n), 0),
        Reply::Map(k) => numbers(26, there(k, n), 0),
        Reply::Refused(k) => numbers(k, 0, 0),
        Reply::RefusedAfter(k, w) => numbers(k, 0, w),
        Reply::Handed => numbers(16, 0, 0),
    }
}

// ---- the answer of each kind of call as numbers

pub fn encode_done<R: Reason>(a: Result<(), R>) -> Answer
    ensures { numbers_of result ≡ encoded (says_of R.says (λ _. machine.done) a) }
{
    encode(of_done(a), 0)
}

pub fn encode_touched<R: Reason>(a: Result<Touched, R>) -> Answer
    ensures { numbers_of result ≡ encoded (says_of R.says touched_tells a) }
{
    encode(of_touched(a), 0)
}

pub fn encode_looked<R: Reason>(a: Result<Looked, R>) -> Answer
    ensures { numbers_of result ≡ encoded (says_of R.says looked_tells a) }
{
    encode(of_looked(a), 0)
}

pub fn encode_released<R: Reason>(a: Result<u32, R>) -> Answer
    ensures { numbers_of result ≡ encoded (says_of R.says machine.pages a) }
{
    encode(of_released(a), 0)
}

pub fn encode_given_back<R: Reason>(a: Result<(), R>) -> Answer
    ensures { numbers_of result ≡ encoded (says_of R.says (λ _. machine.handed) a) }
{
    encode(of_given_back(a), 0)
}

pub fn encode_free<R: Reason>(a: Result<u32, R>) -> Answer
    ensures { numbers_of result ≡ encoded (says_of R.says machine.frames a) }
{
    encode(of_free(a), 0)
}

pub fn encode_translated<R: Reason>(a: Result<usize, R>) -> Answer
    ensures { numbers_of result ≡ encoded (says_of R.says machine.at a) }
{
    encode(of_translated(a), 0)
}

// A read into a buffer of n bytes.
pub fn encode_copied<R: Reason>(a: Result<(), R>, n: usize) -> Answer
    ensures { (buffer : List ℕ) → length buffer ≡ n → numbers_of result ≡ encoded (says_of R.says (λ _. machine.bytes buffer) a) }
{
    encode(of_copied(a), n)
}

pub fn encode_listed<R: Reason>(a: Result<u32, R>) -> Answer
    ensures { (records : List Region) → length records ≡ records_filled a → numbers_of result ≡ encoded (says_of R.says (λ _. machine.regions records) a) }
{
    encode(of_listed(a), 0)
}

// A map into a buffer of n bytes.
pub fn encode_written<R: Reason>(a: Result<u32, R>, n: usize) -> Answer
    ensures { (buffer : List ℕ) → length buffer ≡ n → numbers_of result ≡ encoded (says_of R.says (λ _. machine.map_file (take (bytes_filled a) buffer)) a) }
{
    encode(of_written(a), n)
}

pub fn encode_fullness<R: Reason>(a: Result<u32, R>) -> Answer
    ensures { numbers_of result ≡ encoded (says_of R.says machine.pages a) }
{
    encode(of_fullness(a), 0)
}
