// A mantissa code as a fraction, and that as an f32. A bap cannot be foreseen, so both kinds are worked out and one is taken.
ghost use Rattle.std.specs.Prelude.{◌≡◌, cond, ◌≤◌, ◌<◌, ◌/◌, ltb};
ghost use Rattle.std.specs.Float.{binary32};
ghost use Rattle.std.specs.Float.Ieee.{round};
ghost use Rattle.reconstruct.specs.Inner.{value_of, symmetric_of, asymmetric_of};

// A sign, a size and what it is over.
#[derive(Clone, Copy, Debug, PartialEq, Eq)]
pub struct Fraction {
    pub negative: bool,
    pub size: u32,
    pub over: u32,
}

// Code k of L symmetric levels: (2k - (L - 1)) / L (A/52 7.3.3).
fn symmetric(code: u32, levels: u32) -> Fraction
    requires { (code < levels) × (levels ≤ 65536) }
    ensures { result ≡ symmetric_of levels code }
{
    let twice = 2 * code;
    let top = levels - 1;
    let negative = twice < top;
    Fraction {
        negative,
        size: twice.abs_diff(top),
        over: levels,
    }
}

// A code of two's complement, of which there are `levels`: the signed code over half of them (A/52 7.3.2).
fn asymmetric(code: u32, levels: u32) -> Fraction
    requires { (code < levels) × (levels ≤ 65536) }
    ensures { result ≡ asymmetric_of levels code }
{
    let half = levels / 2;
    let positive = code < half;
    let size = if positive { code } else { levels - code };
    Fraction {
        negative: !positive,
        size,
        over: half,
    }
}

// The code of a bap that has so many levels.
pub(crate) fn fraction_of(bap: u8, code: u32, levels: u32) -> Fraction
    requires { (code < levels) × (levels ≤ 65536) }
    ensures { result ≡ cond (ltb bap 6) (symmetric_of levels code) (asymmetric_of levels code) }
{
    let level = symmetric(code, levels);
    let signed = asymmetric(code, levels);
    if bap < 6 { level } else { signed }
}

// The nearest f32: a quotient of two whole numbers that an f32 holds.
pub(crate) fn value(f: Fraction) -> f32
    requires { (f.size ≤ 65536) × (1 ≤ f.over) × (f.over ≤ 65536) }
    ensures { result ≡ value_of f }
{
    let v = (f.size as f32) / (f.over as f32);
    if f.negative { -v } else { v }
}
