// Quantisation of a mantissa (A/52 7.3, document 01 "Mantissas"): scaling, the nearest of symmetric levels, two's complement fractions.
#![tactic(auto)]

pub mod asymmetric;
pub mod quantise;
pub mod scale;
pub mod symmetric;

pub use quantise::{mantissa_code, quantise_mantissa};
