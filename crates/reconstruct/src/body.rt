// `reconstruct_body`: the tests of `write_body` in its order, one function for each, then the copy. Each function has the contract of what is left
// of the call; what was tested before it is its `requires`.
ghost use Rattle.std.specs.Prelude.{◌≡◌, true, length};
ghost use Rattle.frame.specs.Legal.{exps_legal};
ghost use Rattle.frame.specs.Body.{baps_of};
ghost use Rattle.sheet.specs.Settings.{settings_of};
ghost use Rattle.reconstruct.specs.Inner.{Whole};
ghost use Rattle.reconstruct.specs.Copy.{all_fit, flags_of, levels_of, copy_under, copy_answer, copy_left};

use crate::rows::reconstruct_frame;
use bits::Refusal;
use sheet::{MOST_BUFFER, Track};

// Legal exponents and their bap: the codes are tested next.
fn reconstruct_shaped(
    track: &Track,
    exps: &[u8],
    bap: &[u8],
    codes: &[u16],
    has_level: &mut [u8],
    levels: &mut [f32],
) -> Result<(), Refusal>
    requires whole { Whole track.now.settings (length exps.now) (length codes.now) (length has_level.old) (length levels.old) }
    requires exps_value { (exps_legal track.now.settings exps.now ≡ true) × (bap.now ≡ baps_of track.now.settings exps.now) }
    ensures value { result ≡ copy_under track.now.settings exps.now codes.now (length has_level.old) (length levels.old) }
    ensures has_level_after { has_level.new ≡ copy_left result (flags_of track.now.settings exps.now codes.now) has_level.old }
    ensures levels_after { levels.new ≡ copy_left result (levels_of track.now.settings exps.now codes.now) levels.old }
{
    let n = 256 * track.channels() * 6;
    let mut clean = [0u16; MOST_BUFFER];
    frame_rows::clean_codes(track, codes, &mut clean[0..n]);
    if !frame_rows::codes_legal(track, bap, &clean[0..n]) {
        return Err(Refusal::BadCode);
    }
    reconstruct_frame(track, exps, bap, codes, has_level, levels);
    Ok(())
}

// Buffers of the right length: the exponents are tested next, and their bap is worked out.
fn reconstruct_sized(
    track: &Track,
    exps: &[u8],
    codes: &[u16],
    has_level: &mut [u8],
    levels: &mut [f32],
) -> Result<(), Refusal>
    requires { Whole track.now.settings (length exps.now) (length codes.now) (length has_level.old) (length levels.old) }
    ensures value { result ≡ copy_under track.now.settings exps.now codes.now (length has_level.old) (length levels.old) }
    ensures has_level_after { has_level.new ≡ copy_left result (flags_of track.now.settings exps.now codes.now) has_level.old }
    ensures levels_after { levels.new ≡ copy_left result (levels_of track.now.settings exps.now codes.now) levels.old }
{
    if !frame_rows::exps_legal(track, exps) {
        return Err(Refusal::BadExponent);
    }
    let n = 256 * track.channels() * 6;
    let mut bap = [0u8; MOST_BUFFER];
    frame_rows::allocate_body(track, exps, &mut bap[0..n]);
    reconstruct_shaped(track, exps, &bap[0..n], codes, has_level, levels)
}

// All four buffers have as many entries as the settings say.
fn all_fit(track: &Track, exps: &[u8], codes: &[u16], flags: usize, levels: usize) -> bool
    ensures { result ≡ all_fit track.now.settings exps.now codes.now flags levels }
{
    let n = sheet::buffer_length(track.channels());
    (exps.len() == n) & (codes.len() == n) & (flags == n) & (levels == n)
}

// The listening copy of a frame: for each bin whether it has a level, and the level; 0 where it is silent and from each end on.
pub fn reconstruct_body(
    sheet: &[u8],
    exps: &[u8],
    codes: &[u16],
    has_level: &mut [u8],
    levels: &mut [f32],
) -> Result<(), Refusal>
    ensures value { result ≡ copy_answer sheet.now exps.now codes.now (length has_level.old) (length levels.old) }
    ensures has_level_after { has_level.new ≡ copy_left result (flags_of (settings_of sheet.now) exps.now codes.now) has_level.old }
    ensures levels_after { levels.new ≡ copy_left result (levels_of (settings_of sheet.now) exps.now codes.now) levels.old }
{
    let track = Track::from_bytes(sheet)?;
    if !all_fit(&track, exps, codes, has_level.len(), levels.len()) {
        return Err(Refusal::WrongLength);
    }
    reconstruct_sized(&track, exps, codes, has_level, levels)
}
