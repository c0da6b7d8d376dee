// `encode_body`: exponents, bap, codes and the body of a frame's coefficients. A frame is worked out in local arrays, so that a refusal
// leaves everything.
ghost use Rattle.std.specs.Prelude.{◌≡◌, length};
ghost use Rattle.sheet.specs.Settings.{settings_of};
ghost use Rattle.frame.specs.Answers.{body_left};
ghost use Rattle.frame.specs.Body.{baps_of};
ghost use Rattle.frame_runs.specs.Runs.{exps_of};
ghost use Rattle.frame_encoder.specs.Codes.{codes_of};
ghost use Rattle.frame_encoder.specs.Made.{Buffers};
ghost use Rattle.frame_encoder.specs.Encode.{encoded_bits, room_answer, all_fit, encode_answer, left};

use crate::codes::code_frame;
use crate::deliver::{Frame, deliver};
use bits::Refusal;
use frame::BodyBits;
use frame_runs::Coefficients;
use sheet::{MOST_BUFFER, Track};

// Exponents, their allocation, and the codes at both.
fn make_frame(
    coeffs: &Coefficients<'_>,
    shaped: &mut [u8],
    allocated: &mut [u8],
    quantised: &mut [u16],
)
    requires { Buffers coeffs.now.track.now.settings (length shaped.old) (length allocated.old) (length quantised.old) }
    ensures shaped_after { shaped.new ≡ exps_of coeffs.now.track.now.settings coeffs.now.values.now }
    ensures allocated_after { allocated.new ≡ baps_of coeffs.now.track.now.settings (exps_of coeffs.now.track.now.settings coeffs.now.values.now) }
    ensures quantised_after { quantised.new ≡ codes_of coeffs.now.track.now.settings coeffs.now.values.now }
{
    frame_runs::fill_exponents(coeffs, shaped);
    frame_rows::allocate_body(coeffs.track, shaped, allocated);
    code_frame(coeffs, shaped, allocated, quantised);
}

// Buffers of the right length: only room may lack.
fn encode_accepted(
    coeffs: &Coefficients<'_>,
    exps: &mut [u8],
    bap: &mut [u8],
    codes: &mut [u16],
    body: &mut [u8],
) -> Result<BodyBits, Refusal>
    requires { Buffers coeffs.now.track.now.settings (length exps.old) (length bap.old) (length codes.old) }
    ensures value { result ≡ room_answer coeffs.now.track.now.settings (exps_of coeffs.now.track.now.settings coeffs.now.values.now) (codes_of coeffs.now.track.now.settings coeffs.now.values.now) (length body.old) }
    ensures exps_after { exps.new ≡ left result (exps_of coeffs.now.track.now.settings coeffs.now.values.now) exps.old }
    ensures bap_after { bap.new ≡ left result (baps_of coeffs.now.track.now.settings (exps_of coeffs.now.track.now.settings coeffs.now.values.now)) bap.old }
    ensures codes_after { codes.new ≡ left result (codes_of coeffs.now.track.now.settings coeffs.now.values.now) codes.old }
    ensures body_after { body.new ≡ body_left result (encoded_bits coeffs.now.track.now.settings coeffs.now.values.now) body.old }
{
    let track = coeffs.track;
    let z = 256 * track.channels() * 6;
    let mut shaped = [0u8; MOST_BUFFER];
    let mut allocated = [0u8; MOST_BUFFER];
    let mut quantised = [0u16; MOST_BUFFER];
    make_frame(
        coeffs,
        &mut shaped[0..z],
        &mut allocated[0..z],
        &mut quantised[0..z],
    );
    let frame = Frame {
        track,
        exps: &shaped[0..z],
        bap: &allocated[0..z],
        codes: &quantised[0..z],
    };
    deliver(&frame, exps, bap, codes, body)
}

// Coefficients, exponents, bap and codes have as many entries as the settings say.
fn all_fit(track: &Track, coeffs: usize, exps: usize, bap: usize, codes: usize) -> bool
    ensures { result ≡ all_fit track.now.settings coeffs exps bap codes }
{
    let n = sheet::buffer_length(track.channels());
    (coeffs == n) & (exps == n) & (bap == n) & (codes == n)
}

pub fn encode_body(
    sheet: &[u8],
    coeffs: &[f32],
    exps: &mut [u8],
    bap: &mut [u8],
    codes: &mut [u16],
    body: &mut [u8],
) -> Result<BodyBits, Refusal>
    ensures value { result ≡ encode_answer sheet.now coeffs.now (length exps.old) (length bap.old) (length codes.old) (length body.old) }
    ensures exps_after { exps.new ≡ left result (exps_of (settings_of sheet.now) coeffs.now) exps.old }
    ensures bap_after { bap.new ≡ left result (baps_of (settings_of sheet.now) (exps_of (settings_of sheet.now) coeffs.now)) bap.old }
    ensures codes_after { codes.new ≡ left result (codes_of (settings_of sheet.now) coeffs.now) codes.old }
    ensures body_after { body.new ≡ body_left result (encoded_bits (settings_of sheet.now) coeffs.now) body.old }
{
    let track = Track::from_bytes(sheet)?;
    if !all_fit(&track, coeffs.len(), exps.len(), bap.len(), codes.len()) {
        return Err(Refusal::WrongLength);
    }
    if !frame_runs::all_finite(&track, coeffs) {
        return Err(Refusal::NotFinite);
    }
    let coeffs = Coefficients {
        track: &track,
        values: coeffs,
    };
    encode_accepted(&coeffs, exps, bap, codes, body)
}
