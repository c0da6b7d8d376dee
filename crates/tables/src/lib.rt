// The tables of ATSC A/52 7.2.3 and 7.3, each lent whole by one function that has the table's name: a caller reads the entries that it wants,
// and nothing is copied. HTH is lent by its row, the levels by their bap. MASKTAB and LATAB are not stored, or not whole: they give an entry.
// An entry is a u8 where all of its table fit one, else a u16; a level is an f32.
#![tactic(auto)]

pub mod bands;
pub mod hearing;
pub mod log_addition;
pub mod parameters;
pub mod quantizer;

pub use bands::{bndsz, bndtab, masktab};
pub use hearing::hth;
pub use log_addition::{latab, latab_table};
pub use parameters::{dbpbtab, fastdec, fastgain, floortab, slowdec, slowgain};
pub use quantizer::{baptab, mant_level, quantization_bits};
