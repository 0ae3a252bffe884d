// What a session does ahead of a call: the limits of a start, the bytes of a write.
#![tactic(auto)]

ghost use Rattle.std.specs.Prelude.{not, ◌&&◌, ◌≡◌, ◌*◌, leb};
ghost use Rattle.ahead.specs.Ahead.{beyond, filled_by};

use hexing::unhex;
use requests::Request;

// The places and the bytes of RAM of the largest start.
const MOST_PLACES: u64 = 1_024;

const MOST_BYTES: u64 = 32_768;

fn is_large(s: u32, n: u32, f: u32, p: u32) -> bool
    ensures { result ≡ not (leb (s * n) 1024 && leb (f * p) 32768) }
{
    u64::from(s) * u64::from(n) > MOST_PLACES || u64::from(f) * u64::from(p) > MOST_BYTES
}

// Whether it is a start beyond the session's limits.
pub fn is_beyond(request: Request) -> bool
    ensures { result ≡ beyond request }
{
    match request {
        Request::Start(s, n, f, p) => is_large(s, n, f, p),
        _ => false,
    }
}

// The bytes of a write, from the line's end to the front of the buffer.
pub fn fill(request: Request, line: &[u8], n: usize, buffer: &mut [u8])
    ensures { buffer.new ≡ filled_by request line.now n buffer.old }
{
    if let Request::Write(_, _) = request {
        unhex(line, n, buffer);
    }
}
