// The text of an answer, written into a lent buffer after what stands there already.
#![tactic(auto)]

ghost use Rattle.std.specs.Prelude.{[], ◌+◌, ◌≤◌, cond, leb, length};
ghost use Rattle.requests.specs.Requests.{replied};
ghost use Rattle.requests.specs.declared.Reply.TheVariants.{Refused};
ghost use Rattle.digits.specs.Writing.{Added};
ghost use Rattle.printing.specs.Text.{text as text_of};
ghost use Rattle.printing.specs.Writing.{shown, Says};

use digits::Text;
use requests::Reply;
use texts::{put_bytes, put_map};

// Room for the longest answer.
const ROOM: usize = 65_536;

const MOST_BYTES: usize = 32_736;

const MOST_NUMBERS: usize = 3_072;

// A reply in room for the longest; nothing where it shows more records than there are.
fn put_reply(text: &mut Text<'_>, reply: Reply, bytes: &[u8], records: &[u32])
    requires room { text.old.at + 65536 ≤ length text.old.out.now }
    requires few_bytes { length bytes.now ≤ 32736 }
    requires few_numbers { length records.now ≤ 3072 }
    ensures { Added text.old (cond (leb (shown reply) (length records.now)) (text_of (replied reply bytes.now records.now)) []) text.new }
{
    match reply {
        Reply::Done => text.put(b"ok"),
        Reply::Old(f) => {
            text.put_pair(b"frame ", u64::from(f));
            text.put(b" old 0");
        }
        Reply::New(f, w) => {
            text.put_pair(b"frame ", u64::from(f));
            text.put_pair(b" new ", u64::from(w));
        }
        Reply::Resident(f) => {
            text.put_pair(b"resident ", u64::from(f));
            text.put(b" 0");
        }
        Reply::Absent(w) => text.put_pair(b"absent ", u64::from(w)),
        Reply::Pages(n) => text.put_pair(b"pages ", u64::from(n)),
        Reply::Frames(n) => text.put_pair(b"free ", u64::from(n)),
        Reply::At(p) => text.put_pair(b"at ", p as u64),
        Reply::Bytes => put_bytes(text, bytes),
        Reply::Regions(n) => {
            let Some(numbers) = records.get(..3 * n as usize) else {
                return;
            };
            text.put_pair(b"regions ", u64::from(n));
            text.put_numbers(numbers);
        }
        Reply::Map(n) => put_map(text, bytes, n),
        Reply::Refused(k) => text.put_pair(b"no ", u64::from(k)),
        Reply::RefusedAfter(k, w) => {
            text.put_pair(b"no ", u64::from(k));
            text.put_pair(b" ", u64::from(w));
        }
        Reply::Handed => text.put(b"done"),
    }
}

// The text of a reply; where there isn't room for the longest answer (`roomy`) nothing is written.
pub fn say(out: &mut [u8], at: usize, reply: Reply, bytes: &[u8], records: &[u32]) -> usize
    ensures { Says at out.old reply bytes.now records.now result out.new }
{
    let mut text = Text { out, at };
    if !text.has_room(ROOM) || MOST_BYTES < bytes.len() || MOST_NUMBERS < records.len() {
        return at;
    }
    put_reply(&mut text, reply, bytes, records);
    text.at
}

// The text of a refusal that comes ahead of any call, with no bytes and no records. It says what `say` would; apart from it, since
// a program that calls `say` in one place only needs no call there.
pub fn say_refused(out: &mut [u8], at: usize, k: u32) -> usize
    ensures { Says at out.old (Refused k) [] [] result out.new }
{
    let mut text = Text { out, at };
    if !text.has_room(ROOM) {
        return at;
    }
    text.put_pair(b"no ", u64::from(k));
    text.at
}
