// Exponents of coefficients, shaped for a strategy (document 01, "Exponents"; A/52 7.1).
#![tactic(auto)]

pub mod d15;
pub mod extract;
pub mod finite;
pub mod groups;
pub mod pattern;
pub mod reach;
pub mod select;
pub mod shaped;
pub mod spans;
pub mod strategies;

pub use d15::preprocess_d15;
pub use extract::{exponent_of, extract_exponent};
pub use finite::is_finite;
pub use groups::{groups_of, ngrps_for_strategy};
pub use pattern::coefficient_of;
pub use select::select_exp_strategies_per_end;
pub use shaped::is_shaped;
pub use spans::{is_span, quantise_exponents_to_grpsize, strategy_for};
pub use strategies::{pick_strategy_for_block, strategy_of};
