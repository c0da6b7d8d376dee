// What the frame's calls work out row by row: the allocation of a block and of a whole frame, codes without what stands from an end on, and
// whether exponents and codes are legal.
#![tactic(auto)]

pub mod codes;
pub mod legal;
pub mod rows;

pub use codes::clean_codes;
pub use legal::{codes_legal, exps_legal};
pub use rows::{allocate_body, allocate_row};
