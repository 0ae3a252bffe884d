// A line of output, put together in an array and written by one call.
ghost use Rattle.std.specs.Prelude.{◌≤◌};

const ROOM: usize = 80;

#[derive(Drop)]
pub(crate) struct Line {
    bytes: [u8; ROOM],
    at: usize,
    ghost inside: { at ≤ 80 },
}

impl Line {
    // The line that begins with a word and a number.
    pub(crate) fn new(word: &[u8], n: usize) -> Line {
        let line = Line {
            bytes: [0; ROOM],
            at: 0,
        };
        line.and(word, n)
    }

    // What does not fit is dropped.
    fn text(mut self, s: &[u8]) -> Line {
        let at = self.at;
        let n = s.len().min(ROOM - at);
        self.bytes[at..at + n].copy_from_slice(&s[..n]);
        self.at = at + n;
        self
    }

    // A word, then a number.
    pub(crate) fn and(self, word: &[u8], n: usize) -> Line {
        let mut digits = [0u8; 20];
        let k = io::decimal(n as u64, &mut digits);
        self.text(word).text(&digits[..k])
    }

    // Ends the line with a word, and writes it.
    pub(crate) fn end(self, word: &[u8]) {
        let line = self.text(word).text(b"\n");
        let at = line.at;
        io::write_all(1, &line.bytes[..at]);
    }
}
