// The contents of a map file, on bytes that may be anything: whether all of them are there, and what they tell of a space.
#![tactic(auto)]

ghost use Rattle.std.specs.Prelude.{◌≡◌, ◌*◌, ◌≤◌, ◌<◌, length};
ghost use Rattle.words.specs.Words.{words_in};
ghost use Rattle.machine.specs.Answers.{fullness_says};
ghost use Rattle.machine.specs.Fullness.{fullness_of};
ghost use Rattle.machine.specs.Map.{first_body, row_count};
ghost use Rattle.machine.specs.MapRules.{contents_whole};

use refusals::Refusal;
use words::index_at;

// Whether the contents aren't cut short. What follows them may be anything.
pub fn is_whole(bytes: &[u8]) -> bool
    ensures { result ≡ contents_whole bytes.now }
{
    if bytes.len() < 4 {
        return false;
    }
    let spaces = index_at(bytes, 0);
    4 * (4 + 3 * (spaces + 1)) <= bytes.len()
}

// The third word of row i: how many pairs its body has, or frames the pool.
pub fn count_at(bytes: &[u8], i: usize) -> usize
    requires { 4 * first_body i ≤ length bytes.now }
    ensures { (result ≡ row_count (words_in bytes.now) i) × (result < 4294967296) }
{
    index_at(bytes, 4 + (3 * i + 2))
}

// How full a space is: its third word as it stands. Refused with 1 for contents cut short or a number of spaces outside its limits, then with 2.
pub fn how_full(space: u32, bytes: &[u8]) -> Result<u32, Refusal>
    ensures { fullness_says result ≡ fullness_of bytes.now space }
{
    if !is_whole(bytes) {
        return Err(Refusal::BadSizes);
    }
    let spaces = index_at(bytes, 0);
    if spaces < 1 {
        return Err(Refusal::BadSizes);
    }
    if 64 < spaces {
        return Err(Refusal::BadSizes);
    }
    let i = space as usize;
    if spaces <= i {
        return Err(Refusal::NoSpace);
    }
    Ok(count_at(bytes, i) as u32)
}
