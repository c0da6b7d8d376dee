// The exponent set on bits (A/52 7.1.3): its writer and its reader.
#![tactic(auto)]

pub mod groups;
pub mod limits;
pub mod read;
pub mod write;

pub use limits::in_range;
pub use read::{get_exponents, read_exponents_grouped};
pub use write::{put_exponents, write_exponents_grouped};
