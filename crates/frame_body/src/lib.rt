// The bits of a frame's body and their counts (document 01, "The frame body").
#![tactic(auto)]

pub mod count;
pub mod gather;
pub mod write;

pub use count::{body_size, count_body};
pub use write::store_body;
