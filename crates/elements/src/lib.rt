// Elements of the bit stream's audio blocks (A/52 5.4.3) that several layers name: the exponent set of a block and its strategy,
// a segment of the delta bit allocation.
#![tactic(auto)]

pub mod segment;
pub mod set;
pub mod strategy;

pub use segment::Segment;
pub use set::{BlockSet, ExponentSet};
pub use strategy::{NoStrategy, Strategy};
