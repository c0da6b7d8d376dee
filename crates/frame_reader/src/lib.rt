// The reader of a frame's body (document 01, "The frame body", "When a call is turned back").
#![tactic(auto)]

pub mod block;
pub mod blocks;
pub mod body;
pub mod sets;

pub use body::read_body;
