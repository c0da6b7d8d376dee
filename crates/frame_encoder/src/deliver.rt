// A frame that is worked out is stored once it is known that its body has room.
ghost use Rattle.std.specs.Prelude.{◌≡◌, length};
ghost use Rattle.bits.specs.Bytes.{bytes_for};
ghost use Rattle.frame.specs.Answers.{body_left};
ghost use Rattle.frame.specs.Body.{body_bits};
ghost use Rattle.frame_encoder.specs.Encode.{room_answer, left};
ghost use Rattle.frame_encoder.specs.Made.{Buffers, Made};

use bits::Refusal;
use frame::BodyBits;
use sheet::Track;

// A frame that is worked out: its shaped exponents, their allocation, its quantised codes.
#[derive(Clone, Copy)]
pub(crate) struct Frame<'a> {
    pub track: &'a Track,
    pub exps: &'a [u8],
    pub bap: &'a [u8],
    pub codes: &'a [u16],
    pub ghost made: { Made track.now.settings exps.now bap.now codes.now },
}

// The bytes that so many bits take.
fn bytes_for(bits: u32) -> usize
    ensures { result ≡ bytes_for bits }
{
    (bits as usize).div_ceil(8)
}

pub(crate) fn deliver(
    frame: &Frame<'_>,
    exps: &mut [u8],
    bap: &mut [u8],
    codes: &mut [u16],
    body: &mut [u8],
) -> Result<BodyBits, Refusal>
    requires { Buffers frame.now.track.now.settings (length exps.old) (length bap.old) (length codes.old) }
    ensures value { result ≡ room_answer frame.now.track.now.settings frame.now.exps.now frame.now.codes.now (length body.old) }
    ensures exps_after { exps.new ≡ left result frame.now.exps.now exps.old }
    ensures bap_after { bap.new ≡ left result frame.now.bap.now bap.old }
    ensures codes_after { codes.new ≡ left result frame.now.codes.now codes.old }
    ensures body_after { body.new ≡ body_left result (body_bits frame.now.track.now.settings frame.now.exps.now frame.now.codes.now) body.old }
{
    let counts = frame_body::count_body(frame.track, frame.bap);
    let bits = frame_body::body_size(counts);
    if body.len() < bytes_for(bits) {
        return Err(Refusal::NoRoom);
    }
    frame_body::store_body(body, frame.track, frame.exps, frame.bap, frame.codes);
    exps.copy_from_slice(frame.exps);
    bap.copy_from_slice(frame.bap);
    codes.copy_from_slice(frame.codes);
    Ok(BodyBits { counts, bits })
}
