// The entries for the Rust host and for the runs against the Rust: each is thin over the call of the same name.
// A slice passes as a pointer and then a length; an answer is 0 or the refusal's number.
#![tactic(auto)]

pub mod allocation_entry;
pub mod exponent_entries;
pub mod frame_entries;
pub mod mantissa_entries;
pub mod reconstruct_entries;
pub mod results;
pub mod shaping_entries;
pub mod sheet_entry;
pub mod writer_entry;
