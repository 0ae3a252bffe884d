// A copy at memory speed. Two copies by way of a local page tell the compiler that nothing overlaps, and
// become one memmove (tests/object holds the object code to it).
#![tactic(auto)]

ghost use Rattle.std.specs.Prelude.{◌≡◌, ◌++◌, ◌≤◌, length, drop};

// Copies src to the front of dst, by way of page.
fn via(src: &[u8], page: &mut [u8], dst: &mut [u8])
    requires { (length src.now ≤ length page.old) × (length src.now ≤ length dst.old) }
    ensures { dst.new ≡ src.now ++ drop (length src.now) dst.old }
{
    let n = src.len();
    page[..n].copy_from_slice(src);
    dst[..n].copy_from_slice(&page[..n]);
}

// A page of which only the length is known, so that its zeros need not be written.
fn blank() -> [u8; 65536]
    ensures { 65536 ≡ length result }
{
    [0; 65536]
}

// Copies src, at most a page, to the front of dst.
pub fn copy(src: &[u8], dst: &mut [u8])
    requires { (length src.now ≤ 65536) × (length src.now ≤ length dst.old) }
    ensures { dst.new ≡ src.now ++ drop (length src.now) dst.old }
{
    let mut page = blank();
    via(src, &mut page, dst);
}
