// `extract_exponent`: the exponent of a coefficient, by the exponent field of the f32 (document 01, "Exponents"; A/52 7.1).
ghost use Rattle.std.specs.Prelude.{◌≡◌, T};
ghost use Rattle.std.specs.Float.Ieee.Scale.{finite};
ghost use Rattle.shaping.specs.Extract.{exponent_of, extracted};

use crate::finite::is_finite;
use bits::Refusal;

// The exponent of a finite coefficient.
#[tactic(auto, unfolding(crate::specs::Extract::exponent_of))]
pub fn exponent_of(x: f32) -> u8
    requires { T (finite x) }
    ensures { result ≡ exponent_of x }
{
    let field = f32::to_bits(x) / 8388608 % 256;
    if 126 <= field {
        return 0;
    }
    if field <= 102 {
        return 24;
    }
    (126 - field) as u8
}

#[tactic(auto, unfolding(crate::specs::Extract::extracted))]
pub fn extract_exponent(x: f32) -> Result<u8, Refusal>
    ensures { result ≡ extracted x }
{
    if !is_finite(x) {
        return Err(Refusal::NotFinite);
    }
    Ok(exponent_of(x))
}
