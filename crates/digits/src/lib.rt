// Text written into a lent buffer after what stands there already: words, numbers in decimal, bytes in hex.
#![tactic(auto)]

ghost use Rattle.std.specs.Prelude.{◌≡◌, ◌++◌, ◌+◌, ◌*◌, ◌%◌, ◌≤◌, leb, length};
ghost use Rattle.io.specs.Digits.{hex_digit_ascii};
ghost use Rattle.digits.specs.Text.{decimal, hex_text, numbers_text};
ghost use Rattle.digits.specs.Writing.{Wrote, Added};

// A lent buffer, and how much of it is written.
#[derive(Drop)]
pub struct Text<'a> {
    pub out: &'a mut [u8],
    pub at: usize,
}

// The digit of a number below 16.
fn hex_digit(d: u8) -> u8
    requires { d ≤ 15 }
    ensures { result ≡ hex_digit_ascii d }
{
    if d < 10 { b'0' + d } else { b'a' - 10 + d }
}

// The last decimal digit of a number.
fn last_digit(n: u64) -> u8
    ensures { result ≡ hex_digit_ascii (n % 10) }
{
    hex_digit((n % 10) as u8)
}

// Bytes from a place of a buffer on, two hex digits each. Digits are stored one by one: as words of two they take several times as long.
fn write_hex(out: &mut [u8], at: usize, bytes: &[u8])
    requires { at + 2 * length bytes.now ≤ length out.old }
    ensures { Wrote at out.old (hex_text bytes.now) (at + 2 * length bytes.now) out.new }
{
    for (i, b) in bytes.iter().enumerate() {
        out[at + 2 * i] = hex_digit(b / 16);
        out[at + 2 * i + 1] = hex_digit(b % 16);
    }
}

impl<'a> Text<'a> {
    // Whether n bytes more fit.
    pub fn has_room(&self, n: usize) -> bool
        ensures { result ≡ leb (self.now.at + n) (length self.now.out.now) }
    {
        self.at <= self.out.len() && n <= self.out.len() - self.at
    }

    // A word.
    pub fn put(&mut self, word: &[u8])
        requires { self.old.at + length word.now ≤ length self.old.out.now }
        ensures { Added self.old word.now self.new }
    {
        let end = self.at + word.len();
        self.out[self.at..end].copy_from_slice(word);
        self.at = end;
    }

    // A number in decimal of any length, by way of an array of its digits.
    fn put_long(&mut self, n: u64)
        requires { self.old.at + 20 ≤ length self.old.out.now }
        ensures added { Added self.old (decimal n) self.new }
        ensures upper_bound { self.new.at ≤ self.old.at + 20 }
    {
        let mut digits = [0u8; 20];
        let k = io::decimal(n, &mut digits);
        self.put(&digits[..k]);
    }

    // A number in decimal, at most 20 digits. Most have one to three, which go straight to their places.
    fn put_number(&mut self, n: u64)
        requires { self.old.at + 20 ≤ length self.old.out.now }
        ensures added { Added self.old (decimal n) self.new }
        ensures upper_bound { self.new.at ≤ self.old.at + 20 }
    {
        if n < 10 {
            return self.put(&[last_digit(n)]);
        }
        if n < 100 {
            return self.put(&[last_digit(n / 10), last_digit(n)]);
        }
        if n < 1000 {
            return self.put(&[last_digit(n / 10 / 10), last_digit(n / 10), last_digit(n)]);
        }
        self.put_long(n);
    }

    // Bytes, two hex digits each.
    pub fn put_hex(&mut self, bytes: &[u8])
        requires { self.old.at + 2 * length bytes.now ≤ length self.old.out.now }
        ensures { Added self.old (hex_text bytes.now) self.new }
    {
        write_hex(self.out, self.at, bytes);
        self.at += 2 * bytes.len();
    }

    // A word, then a number.
    pub fn put_pair(&mut self, word: &[u8], n: u64)
        requires { self.old.at + length word.now + 20 ≤ length self.old.out.now }
        ensures added { Added self.old (word.now ++ decimal n) self.new }
        ensures upper_bound { self.new.at ≤ self.old.at + length word.now + 20 }
    {
        self.put(word);
        self.put_number(n);
    }

    // Numbers, each after a blank.
    pub fn put_numbers(&mut self, numbers: &[u32])
        requires { self.old.at + 21 * length numbers.now ≤ length self.old.out.now }
        ensures { Added self.old (numbers_text numbers.now) self.new }
    {
        for n in numbers {
            self.put_pair(b" ", u64::from(*n));
        }
    }
}
