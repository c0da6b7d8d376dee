// The exponents of a frame, from its coefficients (document 01, "The frame body"), and the test that these are finite.
#![tactic(auto)]

pub mod below;
pub mod finite;
pub mod part;
pub mod rows;
pub mod whole;

pub use below::below_end;
pub use finite::all_finite;
pub use rows::fill_exponents;
pub use whole::Coefficients;
