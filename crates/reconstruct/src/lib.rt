// The listening copy (document 02, W3): what mantissa codes stand for, a bin alone and a whole frame.
#![tactic(auto)]

pub mod body;
pub mod mantissa;
pub mod rows;
pub mod values;

pub use body::reconstruct_body;
pub use mantissa::{Reconstructed, reconstruct_mantissa};
