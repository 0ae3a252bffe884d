// What answers say with more than words and numbers, in a lent buffer after what stands there already.
#![tactic(auto)]

ghost use Rattle.std.specs.Prelude.{cond, [], ◌++◌, ◌+◌, ◌*◌, ◌≤◌, leb, length, take};
ghost use Rattle.digits.specs.Text.{hex_text};
ghost use Rattle.digits.specs.Writing.{Wrote, Added};
ghost use Rattle.texts.specs.Text.{bad_line, bytes_word, bytes_text, map_word};

use digits::Text;

// What a read gave, after a blank if it gave any.
pub fn put_bytes(text: &mut Text<'_>, bytes: &[u8])
    requires { text.old.at + 64 + 2 * length bytes.now ≤ length text.old.out.now }
    ensures { Added text.old (bytes_word ++ bytes_text bytes.now) text.new }
{
    if bytes.is_empty() {
        return text.put(b"bytes");
    }
    text.put(b"bytes ");
    text.put_hex(bytes);
}

// A map, the first n of these bytes.
pub fn put_map(text: &mut Text<'_>, bytes: &[u8], n: u32)
    requires { text.old.at + 64 + 2 * length bytes.now ≤ length text.old.out.now }
    ensures { Added text.old (map_word ++ hex_text (take n bytes.now)) text.new }
{
    let n = (n as usize).min(bytes.len());
    text.put(b"map ");
    text.put_hex(&bytes[..n]);
}

// The answer to a line that is no call; where there isn't room nothing is written.
pub fn say_bad_line(out: &mut [u8], at: usize) -> usize
    ensures { Wrote at out.old (cond (leb (at + 8) (length out.old)) bad_line []) result out.new }
{
    let mut text = Text { out, at };
    if !text.has_room(8) {
        return at;
    }
    text.put(b"bad line");
    text.at
}
