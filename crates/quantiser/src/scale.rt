// A coefficient times 2^exponent, held to -1..1 (`2f32.powi(exp)` and `clamp` of the Rust, worked out exactly).
ghost use Rattle.std.specs.Prelude.{◌≡◌, ◌^◌, ◌≤◌, pos};
ghost use Rattle.std.specs.Float.{binary32};
ghost use Rattle.std.specs.Float.Ieee.{of_int};
ghost use Rattle.quantiser.specs.Scale.{scaled};

// 2^k as a whole number.
pub fn power(k: u32) -> u32
    requires { k ≤ 24 }
    ensures { result ≡ 2 ^ k }
{
    1 << k
}

// 2^k as an f32, which has it exactly.
pub fn power_f32(k: u32) -> f32
    requires { k ≤ 24 }
    ensures { result ≡ of_int binary32 (pos (2 ^ k)) }
{
    power(k) as f32
}

// The mantissa of a coefficient at an exponent.
pub fn scale(coeff: f32, exponent: u32) -> f32
    requires { exponent ≤ 24 }
    ensures { result ≡ scaled coeff exponent }
{
    (coeff * power_f32(exponent)).clamp(-1.0, 1.0)
}
