// What the program of document 01 answers to its input: a track sheet, then coefficients by their bit patterns.
#![tactic(auto)]

pub mod coefficients;
pub mod program;

pub use program::encode_input;
