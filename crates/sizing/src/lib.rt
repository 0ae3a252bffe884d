// How much memory a start of some sizes asks for, so that a caller can lend it.
#![tactic(auto)]

ghost use Rattle.std.specs.Prelude.{[], ◌∷◌, true, ◌≡◌};
ghost use Rattle.machine.specs.Machine.{sizes, sizes_ok};
ghost use Rattle.memory.specs.Memory.{sizes_of};
ghost use Rattle.sizing.specs.Needed.{numbers_of, needed_for, map_room};

use checks::{all_places, index_words, ram_bytes, sizes_ok, wide};
use machine::PageSize;
use memory::Head;

// Words of the index, entries of the five tables with one a place, of the frame link, bytes of RAM, and of a map file at most;
// or refusal 1, for sizes outside their limits, and 0.
#[repr(C)]
#[derive(Clone, Copy)]
pub struct Needs {
    pub refusal: u32,
    pub index: usize,
    pub places: usize,
    pub link: usize,
    pub ram: usize,
    pub map: usize,
}

fn no_sizes() -> Needs
    ensures { numbers_of result ≡ 1 ∷ 0 ∷ 0 ∷ 0 ∷ 0 ∷ 0 ∷ [] }
{
    Needs {
        refusal: 1,
        index: 0,
        places: 0,
        link: 0,
        ram: 0,
        map: 0,
    }
}

// The bytes of a map file at most: contents, each place a region, each frame held or in the pool.
fn map_bytes(h: Head) -> usize
    requires { sizes_ok (sizes_of h) ≡ true }
    ensures { result ≡ map_room (sizes_of h) }
{
    let contents = 3 * wide(h.spaces) + 7;
    4 * (contents + 3 * all_places(h) + 2 * wide(h.frames))
}

// What a start of these sizes and the calls after it must be lent.
pub fn needed(spaces: u32, pages: u32, frames: u32, page: u32) -> Needs
    ensures { numbers_of result ≡ needed_for (sizes spaces pages frames page) }
{
    let Ok(size) = PageSize::of(page) else {
        return no_sizes();
    };
    let h = Head {
        spaces,
        pages,
        frames,
        page: size,
        first: 0,
        many: 0,
        fresh: 0,
    };
    if !sizes_ok(h) {
        return no_sizes();
    }
    let places = all_places(h);
    Needs {
        refusal: 0,
        index: index_words(places),
        places,
        link: wide(frames),
        ram: ram_bytes(h),
        map: map_bytes(h),
    }
}
