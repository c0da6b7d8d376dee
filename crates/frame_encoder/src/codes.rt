// The codes of a frame's coefficients at its exponents and baps.
ghost use Rattle.std.specs.Prelude.{◌≡◌, ◌++◌, ◌-◌, ◌*◌, ◌≤◌, ◌<◌, length, replicate};
ghost use Rattle.bits.specs.Parts.{joined};
ghost use Rattle.sheet.specs.Settings.{channels};
ghost use Rattle.frame_encoder.specs.Codes.{codes_for, code_part, codes_at};
ghost use Rattle.frame_encoder.specs.Made.{Codable, Allocated};

use frame_runs::{Coefficients, below_end};

fn code_bins(coeffs: &[f32], exps: &[u8], bap: &[u8], codes: &mut [u16])
    requires codable { Codable coeffs.now exps.now bap.now }
    requires codes_len { length codes.old ≡ length coeffs.now }
    ensures { codes.new ≡ codes_for coeffs.now exps.now bap.now }
{
    for i in 0..codes.len() {
        codes[i] = quantiser::mantissa_code(coeffs[i], u32::from(exps[i]), bap[i]);
    }
}

// A channel's part: the codes of its bins below end, and 0 from there on.
fn code_part(coeffs: &[f32], exps: &[u8], bap: &[u8], part: &mut [u16])
    requires codable { Codable coeffs.now exps.now bap.now }
    requires coeffs_len_bound { (length coeffs.now ≤ 256) × (length part.old ≡ 256) }
    ensures { part.new ≡ codes_for coeffs.now exps.now bap.now ++ replicate (256 - length coeffs.now) 0 }
{
    let end = coeffs.len();
    code_bins(coeffs, exps, bap, &mut part[0..end]);
    part[end..256].fill(0);
}

// Block b.
fn code_row(coeffs: &Coefficients<'_>, exps: &[u8], bap: &[u8], b: usize, row: &mut [u16])
    requires allocated { Allocated coeffs.now.track.now.settings exps.now bap.now }
    requires b_bound { (b < 6) × (length row.old ≡ 256 * channels coeffs.now.track.now.settings) }
    ensures { row.new ≡ joined (channels coeffs.now.track.now.settings) (code_part coeffs.now.track.now.settings coeffs.now.values.now exps.now bap.now b) }
{
    let track = coeffs.track;
    let n = track.channels();
    for c in 0..n {
        let a = 256 * c;
        let e = a + 256;
        code_part(
            below_end(track, coeffs.values, b, c),
            below_end(track, exps, b, c),
            below_end(track, bap, b, c),
            &mut row[a..e],
        );
    }
}

// All six blocks.
pub(crate) fn code_frame(coeffs: &Coefficients<'_>, exps: &[u8], bap: &[u8], codes: &mut [u16])
    requires allocated { Allocated coeffs.now.track.now.settings exps.now bap.now }
    requires codes_len { length codes.old ≡ 256 * channels coeffs.now.track.now.settings * 6 }
    ensures { codes.new ≡ codes_at coeffs.now.track.now.settings coeffs.now.values.now exps.now bap.now }
{
    let n = coeffs.track.channels();
    let z = 256 * n;
    for b in 0..6 {
        let a = z * b;
        let e = a + z;
        code_row(coeffs, exps, bap, b, &mut codes[a..e]);
    }
}
