// A coefficient by its bit pattern, for programs that read coefficients from bytes.
ghost use Rattle.std.specs.Prelude.{◌≡◌};
ghost use Rattle.shaping.specs.Pattern.{coefficient};

// An infinity stands for a NaN, of whose pattern no f32 may be made.
pub fn coefficient_of(pattern: u32) -> f32
    ensures { result ≡ coefficient pattern }
{
    if pattern % 2147483648 > 2139095040 {
        return 1.0 / 0.0;
    }
    f32::from_bits(pattern)
}
