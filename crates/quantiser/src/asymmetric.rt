// bap 6 to 15: two's complement fractions (A/52 7.3.2), rounded half away from zero (`round` and `clamp` of the Rust).
// A mantissa's sign and size cannot be foreseen, so the code is worked out from the pattern of the f32 with no branch on either.
ghost use Rattle.std.specs.Prelude.{◌≡◌, ◌-◌, ◌*◌, ◌^◌, ◌≤◌, T};
ghost use Rattle.std.specs.Float.Ieee.Positive.{num, den};
ghost use Rattle.quantiser.specs.Inner.{within};
ghost use Rattle.quantiser.specs.Asymmetric.{half_away, signed_code};

use crate::scale::power;

// |m| * 2^(width - 1) to the nearest whole number, a half up: the whole part of twice that, and one, halved.
// |m| is its 24 digits times 2^(field - 150). A shift by 31 leaves nothing of them, as a longer one would. A subnormal m has no leading
// digit, but is so small that its shift is such a one.
fn half_away(m: f32, width: u32) -> u32
    requires t { T (within m) }
    requires le_width { (1 ≤ width) × (width ≤ 16) }
    ensures { result ≡ half_away (num m * 2 ^ (width - 1)) (den m) }
{
    let pattern = m.to_bits();
    let field = pattern / 8388608 % 256;
    let digits = pattern % 8388608 + 8388608;
    let twice = digits >> (150 - width - field).min(31);
    (twice + 1) / 2
}

// The code of bap 6 to 15: that of either sign is worked out, and the sign bit takes one. Of -0 both are 0.
pub fn signed_code(m: f32, width: u32) -> u32
    requires t { T (within m) }
    requires le_width { (1 ≤ width) × (width ≤ 16) }
    ensures { result ≡ signed_code width m }
{
    let size = half_away(m, width);
    let all = power(width);
    let above = size.min(power(width - 1) - 1);
    let below = (all - size) & (all - 1);
    if m.is_sign_negative() { below } else { above }
}
