// `write_body`: the tests in the order of document 01, "When a call is turned back", one function for each, then the body.
// Each function has the contract of what is left of the call; what was tested before it is its `requires`.
ghost use Rattle.std.specs.Prelude.{◌≡◌, true, length};
ghost use Rattle.frame.specs.Answers.{write_answer, write_under, body_left};
ghost use Rattle.frame.specs.Body.{body_bits, baps_of};
ghost use Rattle.frame.specs.Legal.{exps_legal, LegalFrame};
ghost use Rattle.frame.specs.Layout.{cleaned};
ghost use Rattle.frame_writer.specs.Sized.{Sized};
ghost use Rattle.sheet.specs.Settings.{settings_of};

use bits::Refusal;
use frame::BodyBits;
use sheet::{MOST_BUFFER, Track};

// A legal frame, its codes clean: refused only where the output is too short.
fn write_legal(
    track: &Track,
    exps: &[u8],
    bap: &[u8],
    codes: &[u16],
    out: &mut [u8],
) -> Result<BodyBits, Refusal>
    requires lengths { Sized track.now.settings exps.now codes.now }
    requires legal_frame { LegalFrame track.now.settings exps.now codes.now }
    requires bap_value { (bap.now ≡ baps_of track.now.settings exps.now) × (cleaned track.now.settings codes.now ≡ codes.now) }
    ensures value { result ≡ write_under track.now.settings exps.now codes.now (length out.old) }
    ensures out_after { out.new ≡ body_left result (body_bits track.now.settings exps.now codes.now) out.old }
{
    let counts = frame_body::count_body(track, bap);
    let bits = frame_body::body_size(counts);
    // `as` here: no `From` goes from u32 to usize, and `try_from` with `unwrap` is no plainer.
    if out.len() < bits.div_ceil(8) as usize {
        return Err(Refusal::NoRoom);
    }
    frame_body::store_body(out, track, exps, bap, codes);
    Ok(BodyBits { counts, bits })
}

// Legal exponents and their bap: the codes are tested next.
fn write_shaped(
    track: &Track,
    exps: &[u8],
    bap: &[u8],
    codes: &[u16],
    out: &mut [u8],
) -> Result<BodyBits, Refusal>
    requires lengths { Sized track.now.settings exps.now codes.now }
    requires exps_value { (exps_legal track.now.settings exps.now ≡ true) × (bap.now ≡ baps_of track.now.settings exps.now) }
    ensures value { result ≡ write_under track.now.settings exps.now codes.now (length out.old) }
    ensures out_after { out.new ≡ body_left result (body_bits track.now.settings exps.now codes.now) out.old }
{
    let n = 256 * track.channels() * 6;
    // No heap: a buffer for the most channels, whose front holds the clean codes.
    let mut buffer = [0u16; MOST_BUFFER];
    let clean = &mut buffer[..n];
    frame_rows::clean_codes(track, codes, clean);
    if !frame_rows::codes_legal(track, bap, clean) {
        return Err(Refusal::BadCode);
    }
    write_legal(track, exps, bap, clean, out)
}

// Buffers of the right length: the exponents are tested next, and their bap is worked out.
fn write_sized(
    track: &Track,
    exps: &[u8],
    codes: &[u16],
    out: &mut [u8],
) -> Result<BodyBits, Refusal>
    requires { Sized track.now.settings exps.now codes.now }
    ensures value { result ≡ write_under track.now.settings exps.now codes.now (length out.old) }
    ensures out_after { out.new ≡ body_left result (body_bits track.now.settings exps.now codes.now) out.old }
{
    if !frame_rows::exps_legal(track, exps) {
        return Err(Refusal::BadExponent);
    }
    let n = 256 * track.channels() * 6;
    // No heap: a buffer for the most channels, whose front holds the bap.
    let mut buffer = [0u8; MOST_BUFFER];
    let bap = &mut buffer[..n];
    frame_rows::allocate_body(track, exps, bap);
    write_shaped(track, exps, bap, codes, out)
}

// An accepted sheet: the lengths are tested next.
fn write_under(
    track: &Track,
    exps: &[u8],
    codes: &[u16],
    out: &mut [u8],
) -> Result<BodyBits, Refusal>
    ensures value { result ≡ write_under track.now.settings exps.now codes.now (length out.old) }
    ensures out_after { out.new ≡ body_left result (body_bits track.now.settings exps.now codes.now) out.old }
{
    let n = sheet::buffer_length(track.channels());
    if exps.len() != n || codes.len() != n {
        return Err(Refusal::WrongLength);
    }
    write_sized(track, exps, codes, out)
}

// A body from exponents and codes, from the first bit of the output on, closed with zero bits to the byte.
pub fn write_body(
    sheet: &[u8],
    exps: &[u8],
    codes: &[u16],
    out: &mut [u8],
) -> Result<BodyBits, Refusal>
    ensures value { result ≡ write_answer sheet.now exps.now codes.now (length out.old) }
    ensures out_after { out.new ≡ body_left result (body_bits (settings_of sheet.now) exps.now codes.now) out.old }
{
    let track = Track::from_bytes(sheet)?;
    write_under(&track, exps, codes, out)
}
