// The call that reads a body.
ghost use Rattle.std.specs.Prelude.{◌≡◌, length};
ghost use Rattle.bits.specs.Field.{bits_of};
ghost use Rattle.sheet.specs.Settings.{settings_of};
ghost use Rattle.frame.specs.Answers.{read_answer, read_left, reached, reading_of, read_into, exps_read, bap_read, codes_read};
ghost use Rattle.frame.specs.Reader.{read_frame};
ghost use Rattle.frame_reader.specs.Reading.{CameFrame, SixRows};

use crate::blocks::get_blocks;
use bits::Refusal;
use frame::BodyBits;
use sheet::{MOST_ROW, Track};

// The six blocks, with rows of its own for what holds from block to block.
fn get_frame(
    track: &Track,
    input: &[u8],
    exps: &mut [u8],
    bap: &mut [u8],
    codes: &mut [u16],
) -> Result<BodyBits, Refusal>
    requires { SixRows track.now.settings exps.old bap.old codes.old }
    ensures { CameFrame (read_frame track.now.settings (bits_of input.now)) (bits_of input.now) exps.new bap.new codes.new result }
{
    let z = 256 * track.channels();
    // No heap: rows for the most channels, of which the fronts are lent.
    let mut row = [0u8; MOST_ROW];
    let mut held = [0u8; MOST_ROW];
    get_blocks(
        track,
        input,
        &mut row[..z],
        &mut held[..z],
        exps,
        bap,
        codes,
    )
}

// The frame, or all 0 after a fault.
#[tactic(auto, unfolding(frame::specs::Answers::reading_of, frame::specs::Answers::read_into))]
fn read_frame(
    track: &Track,
    input: &[u8],
    exps: &mut [u8],
    bap: &mut [u8],
    codes: &mut [u16],
) -> Result<BodyBits, Refusal>
    requires { SixRows track.now.settings exps.old bap.old codes.old }
    ensures value { result ≡ reading_of (bits_of input.now) (read_frame track.now.settings (bits_of input.now)) }
    ensures exps_after { exps.new ≡ read_into exps_read (length exps.old) (read_frame track.now.settings (bits_of input.now)) }
    ensures bap_after { bap.new ≡ read_into bap_read (length bap.old) (read_frame track.now.settings (bits_of input.now)) }
    ensures codes_after { codes.new ≡ read_into codes_read (length codes.old) (read_frame track.now.settings (bits_of input.now)) }
{
    match get_frame(track, input, exps, bap, codes) {
        Ok(read) => Ok(read),
        Err(fault) => {
            exps.fill(0);
            bap.fill(0);
            codes.fill(0);
            Err(fault)
        }
    }
}

// Document 01, "When a call is turned back": 1, 2, 11, 10, then 7, 8, 9 as met.
pub fn read_body(
    sheet: &[u8],
    input: &[u8],
    exps: &mut [u8],
    bap: &mut [u8],
    codes: &mut [u16],
) -> Result<BodyBits, Refusal>
    ensures value { result ≡ read_answer sheet.now (bits_of input.now) (length exps.old) (length bap.old) (length codes.old) }
    ensures exps_after { exps.new ≡ read_left (reached sheet.now (length exps.old) (length bap.old) (length codes.old)) exps_read (read_frame (settings_of sheet.now) (bits_of input.now)) exps.old }
    ensures bap_after { bap.new ≡ read_left (reached sheet.now (length exps.old) (length bap.old) (length codes.old)) bap_read (read_frame (settings_of sheet.now) (bits_of input.now)) bap.old }
    ensures codes_after { codes.new ≡ read_left (reached sheet.now (length exps.old) (length bap.old) (length codes.old)) codes_read (read_frame (settings_of sheet.now) (bits_of input.now)) codes.old }
{
    let track = Track::from_bytes(sheet)?;
    let n = sheet::buffer_length(track.channels());
    if exps.len() != n || bap.len() != n || codes.len() != n {
        return Err(Refusal::WrongLength);
    }
    read_frame(&track, input, exps, bap, codes)
}
