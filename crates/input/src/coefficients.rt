// The coefficients by their bit patterns.
ghost use Rattle.std.specs.Prelude.{◌≡◌, ◌+◌, ◌*◌, ◌≤◌, ◌<◌, length};
ghost use Rattle.sheet.specs.Sizes.{most_buffer};
ghost use Rattle.input.specs.Input.{pattern_at, coefficients_in};

// `replay` has the same line, since no crate is below both programs alone.
#[tactic(auto, unfolding(crate::specs::Input::pattern_at))]
fn pattern_at(bytes: &[u8], at: usize) -> u32
    requires { at + 4 ≤ length bytes.now }
    ensures { result ≡ pattern_at bytes.now at }
{
    u32::from_be_bytes([bytes[at], bytes[at + 1], bytes[at + 2], bytes[at + 3]])
}

// The coefficients of four times as many bytes.
pub(crate) fn read_coefficients(bytes: &[u8], coeffs: &mut [f32])
    requires { (length bytes.now ≡ 4 * length coeffs.old) × (length coeffs.old ≤ most_buffer) }
    ensures { coeffs.new ≡ coefficients_in (length coeffs.old) bytes.now }
{
    for i in 0..coeffs.len() {
        coeffs[i] = shaping::coefficient_of(pattern_at(bytes, 4 * i));
    }
}
