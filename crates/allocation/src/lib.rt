// The allocation of one channel (A/52 7.2.2): from its exponents and the codes of the sheet to the pointers of its bins. Here are the parameters
// (7.2.2.1), the pointers (7.2.2.7) and the call; the sections between them are in the crates `excitation` and `masking`.
#![tactic(auto)]

pub mod bap;
pub mod channel;
pub mod initialization;
pub mod ranges;
pub mod window;

pub use channel::{allocate, compute_bap};
