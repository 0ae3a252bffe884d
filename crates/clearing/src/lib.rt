// The bytes of a frame set to 0, all of them or those around a part that is stored over. The fill becomes one memset (tests/object holds
// the object code to it).
#![tactic(auto)]

ghost use Rattle.std.specs.Prelude.{◌≡◌, ◌+◌, ◌-◌, ◌%◌, ◌≤◌, ◌<◌, length, replicate};
ghost use Rattle.std.proofs.lemmas.List.Edits.{sets};
ghost use Rattle.machine.specs.Machine.{zeroed};
ghost use Rattle.memory.specs.Memory.{sizes_of};
ghost use Rattle.spans.specs.Parts.{Frame};
ghost use Rattle.clearing.specs.Clears.{zeroed_around};

use memory::Head;
use spans::{page_bytes, ram_place};

// Sets every byte to 0. A loop, for LLVM makes one memset of it, but of std's fill a memset of all bytes but the last and a store.
fn fill(part: &mut [u8])
    ensures { part.new ≡ replicate (length part.old) 0 }
{
    for byte in part.iter_mut() {
        *byte = 0;
    }
}

// Sets the bytes from one place to before another to 0.
fn clear(ram: &mut [u8], from: usize, to: usize)
    requires { (from ≤ to) × (to ≤ length ram.old) }
    ensures { ram.new ≡ sets ram.old from (replicate (to - from) 0) }
{
    fill(&mut ram[from..to]);
}

// Clears a frame.
pub fn clear_frame(head: Head, frame: u32, ram: &mut [u8])
    requires { Frame head frame ram.old }
    ensures { ram.new ≡ zeroed (sizes_of head) frame ram.old }
{
    let from = ram_place(head, frame, 0);
    clear(ram, from, from + page_bytes(head));
}

// Clears a frame but for the n bytes from address x on, all of one page.
pub fn clear_around(head: Head, frame: u32, x: usize, n: usize, ram: &mut [u8])
    requires { Frame head frame ram.old × (x % (sizes_of head).page + n ≤ (sizes_of head).page) }
    ensures { ram.new ≡ zeroed_around (sizes_of head) frame x n ram.old }
{
    let from = ram_place(head, frame, 0);
    let first = ram_place(head, frame, x);
    let end = from + page_bytes(head);
    clear(ram, from, first);
    clear(ram, first + n, end);
}
