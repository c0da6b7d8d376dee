// The second entry of document 01, "The frame body": a body written from exponents and codes.
#![tactic(auto)]

pub mod write;

pub use write::write_body;
