// A line as a call: its name, then numbers and bytes, one blank apart. A line that is no call is a bad line.
#![tactic(auto)]

mod calls;

pub use calls::parse;

// The bytes of the longest map within a session's limits, 64 spaces, 1,024 places and 128 frames: `longest_map`.
pub const LONGEST_MAP: usize = 14_108;
