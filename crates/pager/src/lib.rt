// The pager's calls in one place, each with its answer and its refusals: document 01, "Refusal numbers".
// None asks anything of its caller; 1 to 3 are refused on any memory, 9 only on memory that no call left so.
#![tactic(auto)]

// Begins anew with these sizes, no starts and every frame in the pool: Ok. Refused: 1.
pub use starting::start;
// Adds a start: Ok. Refused: 1, 2, 3; 6, the page is a start already; 7, the region that it cuts has resident pages; 9.
pub use marking::mark;
// Removes a start: Ok. Refused: 1, 2, 3; 5, the page is no start; 7, its region has resident pages; 9.
pub use marking::drop;
// Looks a page up: Resident with its frame, or Absent with the index words read. Refused, with the words: 1, 2, 3; 4, no region; 9.
pub use lookup::look;
// How many frames the pool has. Refused: 1, 9.
pub use pool::free;
// The page's frame: Old for a resident page, New with the index words for one just mapped. Refused, with the words: 1, 2, 3; 4, no region;
// 8, no frame left; 9.
pub use touching::touch;
// Gives back every page of the region that starts at a page, in constant time: how many. Refused: 1, 2, 3; 5, the page is no start; 9.
pub use releasing::release;
// Hands one page back, in constant time; its region's newest page takes its position, its frame goes to the pool's front: Ok. Refused: 1, 2, 3;
// 4, no region; 10, the page is absent; 9.
pub use giving::give_back;
// The place in RAM of an address. Refused: 1, 2, 3; 4, no region; 10, the page is absent; 9.
pub use translating::translate;
// The bytes of a span into the caller's buffer: Ok. Refused, as for the first page that isn't resident: 1, 2, 3; 4; 10; 9.
pub use reading::read;
// Stores bytes at a span's addresses, mapping what is absent, all or nothing: Ok. Refused: 1, 2, 3; 4, a page has no region; 8, more absent pages
// than pool frames; 9.
pub use writing::write;
// One record a region of a space: how many. Refused: 1, 2; 11, fewer records than regions; 9.
pub use listing::list;
// The whole state but for the RAM as a map file in the caller's buffer: its length. Refused: 1; 9; 13, the buffer is shorter than the file.
pub use saving::write_map;
// Begins anew with the state that a map file describes, the RAM as it stands: Ok. Refused: 12, its contents are cut short or name other sizes than there
// are; 1; 12, it is no map. Like start it needs none before it.
pub use loading::read_map;
// How full a space is, from a map file's contents alone, whatever follows them: the space's third word as it stands. Refused: 1, the contents are cut
// short or their number of spaces is outside its limits; 2. It needs no pager.
pub use contents::how_full;
