// 32-bit little-endian words of a lent byte buffer. Word k is the four bytes from 4 k on.
#![tactic(auto)]

ghost use Rattle.std.specs.Prelude.{◌≡◌, ◌+◌, ◌*◌, ◌≤◌, ◌<◌, length, get_or};
ghost use Rattle.words.specs.Words.{words_in, put_word};

fn wide(b: u8) -> u32
    ensures { (result ≡ b) × (result < 256) }
{
    b as u32
}

// Word k.
pub fn word_at(bytes: &[u8], k: usize) -> u32
    requires { 4 * k + 4 ≤ length bytes.now }
    ensures { result ≡ get_or (words_in bytes.now) k 0 }
{
    let at = 4 * k;
    let a = wide(bytes[at]);
    let b = wide(bytes[at + 1]);
    let c = wide(bytes[at + 2]);
    let d = wide(bytes[at + 3]);
    a + 256 * b + 65536 * c + 16777216 * d
}

// Word k as an index.
pub fn index_at(bytes: &[u8], k: usize) -> usize
    requires { 4 * k + 4 ≤ length bytes.now }
    ensures { (result ≡ get_or (words_in bytes.now) k 0) × (result < 4294967296) }
{
    let w = word_at(bytes, k);
    w as usize
}

// Puts word k.
pub fn put_word(bytes: &mut [u8], k: usize, w: u32)
    requires { 4 * k + 4 ≤ length bytes.old }
    ensures { bytes.new ≡ put_word bytes.old k w }
{
    let at = 4 * k;
    bytes[at] = (w % 256) as u8;
    bytes[at + 1] = (w / 256 % 256) as u8;
    bytes[at + 2] = (w / 65536 % 256) as u8;
    bytes[at + 3] = (w / 16777216) as u8;
}
