// `quantise_mantissa`: the code of a coefficient at an exponent and a bap.
ghost use Rattle.std.specs.Prelude.{◌≡◌, ◌≤◌, T};
ghost use Rattle.std.specs.Float.Ieee.Scale.{finite};
ghost use Rattle.quantiser.specs.Code.{code_of, quantised};

use crate::asymmetric::signed_code;
use crate::scale::scale;
use crate::symmetric::level_code;
use bits::Refusal;
use shaping::is_finite;

// The code of a finite coefficient.
#[tactic(auto, unfolding(crate::specs::Code::code_of))]
pub fn mantissa_code(coeff: f32, exponent: u32, bap: u8) -> u16
    requires t { T (finite coeff) }
    requires exponent_bound { (exponent ≤ 24) × (bap ≤ 15) }
    ensures { result ≡ code_of coeff exponent bap }
{
    if bap == 0 {
        return 0;
    }
    let m = scale(coeff, exponent);
    if bap < 6 {
        return level_code(m, bap);
    }
    signed_code(m, u32::from(tables::quantization_bits()[usize::from(bap)])) as u16
}

// The code of any coefficient, exponent and bap, or the refusal: 3, 4, 5 in this order.
#[tactic(auto, using(std::proofs::lemmas::Bool::Decides::nat_tests), unfolding(crate::specs::Code::quantised))]
pub fn quantise_mantissa(coeff: f32, exponent: u32, bap: u32) -> Result<u16, Refusal>
    ensures { result ≡ quantised coeff exponent bap }
{
    if !is_finite(coeff) {
        return Err(Refusal::NotFinite);
    }
    if exponent > 24 {
        return Err(Refusal::BadExponent);
    }
    if bap > 15 {
        return Err(Refusal::BadCode);
    }
    Ok(mantissa_code(coeff, exponent, bap as u8))
}
