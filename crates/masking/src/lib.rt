// The masking curve of A/52 7.2.2.5 and 7.2.2.6: the hearing threshold, the knee and the delta segments.
#![tactic(auto)]

pub mod delta;
pub mod threshold;

pub use delta::band_deltas;
pub use threshold::masking_curve;
