// Storing the bytes of a span whose pages are mapped: each frame's part of the RAM is lent on, and stored there.
#![tactic(auto)]

ghost use Rattle.std.specs.Prelude.{◌≡◌, ℕ, ◌<◌, ◌≤◌, length};
ghost use Rattle.std.proofs.lemmas.List.Edits.{sets};
ghost use Rattle.machine.specs.Machine.{places, stored_at};
ghost use Rattle.memory.specs.Memory.{sizes_of, place_in, place_by};
ghost use Rattle.spans.specs.Parts.{Span, Part};

use copying::copy;
use memory::Head;
use spans::{frame_at, part, ram_place};

// Stores src, all of one page, from address x on in the page's frame.
pub fn store_frame(head: Head, frame: u32, x: usize, src: &[u8], ram: &mut [u8])
    requires { ((i : ℕ) × Part head i x (length src.now) ram.old) × (frame < head.frames) }
    ensures { ram.new ≡ sets ram.old (place_in head frame x) src.now }
{
    let from = ram_place(head, frame, x);
    let to = from + src.len();
    copy(src, &mut ram[from..to]);
}

// Stores src, all of one page that is mapped, from address x on. A table's word that is no frame is passed over.
fn write_part(head: Head, space: u32, x: usize, src: &[u8], table: &[u32], ram: &mut [u8])
    requires { Part head space x (length src.now) ram.old × (places (sizes_of head) ≤ length table.now) }
    ensures { ram.new ≡ stored_at (place_by head space table.now) x src.now ram.old }
{
    let frame = frame_at(head, space, x, table);
    if frame < head.frames {
        store_frame(head, frame, x, src, ram);
    }
}

// Stores the bytes of a span, a page's part at a time.
pub fn store(head: Head, space: u32, address: usize, bytes: &[u8], table: &[u32], ram: &mut [u8])
    requires { Span head space address (length bytes.now) ram.old × (places (sizes_of head) ≤ length table.now) }
    ensures { ram.new ≡ stored_at (place_by head space table.now) address bytes.now ram.old }
{
    let n = bytes.len();
    let mut done = 0;
    // By hand, since no range or chunk of the library steps by parts that differ in size.
    while done < n {
        let x = address + done;
        let next = done + part(head, x, n - done);
        write_part(head, space, x, &bytes[done..next], table, ram);
        done = next;
    }
}
