// Case files as plain bytes, for the second search: read byte by byte, and judged. Written from the scope alone and with no other crate, so that it
// shares no code with what it is compared to.
//
// Nothing is promised here but safety. A file is the first `length` bytes of an array; what stands past them is never asked for.
#![tactic(auto)]

mod file;
mod judging;
mod numbers;
mod reason;

pub use file::{File, ROOM, first, person_at, rest};
pub use numbers::{down, has, minus, plus, set_of, size, times, to_8, up};
pub use reason::{NoReason, Reason, Turned};
