// `reconstruct_mantissa`: what one bin's code stands for.
ghost use Rattle.std.specs.Prelude.{◌≡◌, ◌≤◌, ◌<◌};
ghost use Rattle.mantissas.specs.Ranges.{levels};
ghost use Rattle.reconstruct.specs.Bin.{reconstructed, flag_of, level_of, bin_answer};

use crate::values::{fraction_of, value};
use bits::Refusal;
use quantiser::scale::power_f32;

/// A bin has no value (bap 0), or a level. Document 01 names this form, an enum `Silent` or `Level(f32)`: so it is no `Option`.
#[derive(Clone, Copy, Debug, PartialEq)]
pub enum Reconstructed {
    Silent,
    Level(f32),
}

// A bin in two numbers, as the host's entries and the frame's buffers hold it.
impl Reconstructed {
    // Whether it has a level.
    pub fn flag(self) -> u8
        ensures { result ≡ flag_of self }
    {
        match self {
            Reconstructed::Silent => 0,
            Reconstructed::Level(_) => 1,
        }
    }

    // Its level, 0 where it is silent.
    pub fn level(self) -> f32
        ensures { result ≡ level_of self }
    {
        match self {
            Reconstructed::Silent => 0.0,
            Reconstructed::Level(level) => level,
        }
    }
}

// The level of a bin whose bap has `count` codes. Bap 0 has one, which comes to 0: no branch on the bap.
pub(crate) fn level_at(exponent: u32, bap: u8, code: u32, count: u32) -> f32
    requires exponent_bound { (exponent ≤ 24) × (bap < 16) }
    requires count_value { (count ≡ levels bap) × (code < count) }
    ensures { result ≡ level_of (reconstructed exponent bap code) }
{
    value(fraction_of(bap, code, count)) / power_f32(exponent)
}

// A bin whose bap has `count` codes.
#[tactic(auto, unfolding(crate::specs::Bin::reconstructed))]
fn bin_at(exponent: u32, bap: u8, code: u32, count: u32) -> Reconstructed
    requires exponent_bound { (exponent ≤ 24) × (bap < 16) }
    requires count_value { (count ≡ levels bap) × (code < count) }
    ensures { result ≡ reconstructed exponent bap code }
{
    if bap == 0 {
        return Reconstructed::Silent;
    }
    Reconstructed::Level(level_at(exponent, bap, code, count))
}

// Any exponent, bap and code, or the refusal: 4, 5 in this order.
#[tactic(auto, unfolding(crate::specs::Bin::bin_answer))]
pub fn reconstruct_mantissa(exponent: u32, bap: u32, code: u32) -> Result<Reconstructed, Refusal>
    ensures { result ≡ bin_answer exponent bap code }
{
    if exponent > 24 {
        return Err(Refusal::BadExponent);
    }
    if bap > 15 {
        return Err(Refusal::BadCode);
    }
    let count = mantissas::code::levels(bap as u8);
    if code >= count {
        return Err(Refusal::BadCode);
    }
    Ok(bin_at(exponent, bap as u8, code, count))
}
