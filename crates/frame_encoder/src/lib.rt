// `encode_body`: a frame's coefficients to the bits of its body (document 01, "The frame body").
#![tactic(auto)]

pub mod codes;
pub mod deliver;
pub mod encode;

pub use encode::encode_body;
