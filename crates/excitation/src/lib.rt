// From a channel's exponents to the excitations of its bands: the psds of the bins, joined in bands (A/52 7.2.2.2, 7.2.2.3), and the
// excitation (7.2.2.4).
#![tactic(auto)]

pub mod excitation;
pub mod excite;
pub mod psd_integration;

pub use excitation::LeakParameters;
pub use excite::excite_bands;
pub use psd_integration::{SINGLES, band_end, band_powers, logadd};
