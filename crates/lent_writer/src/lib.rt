// The writer lent by `&mut` (document 01: "each field written moves the writer's position and pending bits together").
#![tactic(auto)]

pub mod alone;
pub mod lent;

pub use alone::write_alone;
pub use lent::{close, write_field, write_u32};
