// Bytes in hex, two digits each: how many stand at a line's end, and the bytes that they are.
#![tactic(auto)]

ghost use Rattle.std.specs.Prelude.{Bool, ◌≡◌, ◌+◌, ◌*◌, ◌≤◌, length, drop};
ghost use Rattle.hexing.specs.Hex.{is_hex, all_hex, is_bytes, hex_count, nibble, unhexed};

use fields::{BLANK, is_digit};

// The digits of the most bytes that a write has.
const MOST_DIGITS: usize = 512;

// Two tests, each of one range: of both ranges in one match LLVM makes three comparisons a byte.
fn is_hex(c: u8) -> bool
    ensures { result ≡ is_hex c }
{
    is_digit(c) || matches!(c, b'a'..=b'f')
}

// Whether every byte is a hex digit. No byte ends the loop early, so that several are tested at a time.
fn all_hex(digits: &[u8]) -> bool
    ensures { result ≡ all_hex digits.now }
{
    let mut all = true;
    for c in digits {
        all &= is_hex(*c);
    }
    all
}

fn is_bytes(digits: &[u8]) -> bool
    ensures { result ≡ is_bytes digits.now }
{
    let n = digits.len();
    2 <= n && n <= MOST_DIGITS && n % 2 == 0 && all_hex(digits)
}

// How many bytes the rest of a line has in hex, after a blank; none if the line ends here.
pub fn hex_count(line: &[u8], at: usize) -> Option<usize>
    requires { at ≤ length line.now }
    ensures { result ≡ hex_count (drop at line.now) }
{
    let Some((blank, digits)) = line[at..].split_first() else {
        return Some(0);
    };
    if *blank != BLANK || !is_bytes(digits) {
        return None;
    }
    Some(digits.len() / 2)
}

fn value_of(c: u8) -> u8
    requires { is_hex c ≡ Bool.true }
    ensures { (result ≡ nibble c) × (result ≤ 15) }
{
    if c <= b'9' { c - b'0' } else { c - b'a' + 10 }
}

fn byte_of(a: u8, b: u8) -> u8
    requires { (is_hex a ≡ Bool.true) × (is_hex b ≡ Bool.true) }
    ensures { result ≡ 16 * nibble a + nibble b }
{
    16 * value_of(a) + value_of(b)
}

// The bytes that the last 2 n digits of a line are, at the front of the buffer. All or nothing, so every digit is tested before the first byte is written.
pub fn unhex(line: &[u8], n: usize, buffer: &mut [u8])
    ensures { buffer.new ≡ unhexed line.now n buffer.old }
{
    if buffer.len() < n || line.len() / 2 < n {
        return;
    }
    let digits = &line[line.len() - 2 * n..];
    if !all_hex(digits) {
        return;
    }
    for i in 0..n {
        buffer[i] = byte_of(digits[2 * i], digits[2 * i + 1]);
    }
}
