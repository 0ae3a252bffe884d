// The fields of a line: its name, a number after a blank.
#![tactic(auto)]

ghost use Rattle.std.specs.Prelude.{◌≡◌, ◌≤◌, IsTrue, length};
ghost use Rattle.fields.specs.Fields.{begins, is_digit, Takes};

pub const BLANK: u8 = b' ';

// The digits of the longest number.
const MOST_DIGITS: usize = 9;

pub fn is_digit(c: u8) -> bool
    ensures { result ≡ is_digit c }
{
    c.is_ascii_digit()
}

// Whether the line begins with a word.
#[tactic(auto, unfolding(crate::specs::Fields::begins))]
pub fn begins_with(line: &[u8], word: &[u8]) -> bool
    ensures value { result ≡ begins word.now line.now }
    ensures bound { IsTrue result → length word.now ≤ length line.now }
{
    line.starts_with(word)
}

// The number that follows a blank at a place of the line, and where it ends.
pub fn number_after_blank(line: &[u8], at: usize) -> Option<(u32, usize)>
    requires { at ≤ length line.now }
    ensures { Takes line.now at result }
{
    if line.len() - at < 2 || line[at] != BLANK || !is_digit(line[at + 1]) {
        return None;
    }
    let mut value = u32::from(line[at + 1] - b'0');
    for i in at + 2..line.len() {
        let c = line[i];
        if !is_digit(c) {
            return Some((value, i));
        }
        if i - at > MOST_DIGITS {
            return None;
        }
        value = 10 * value + u32::from(c - b'0');
    }
    Some((value, line.len()))
}
