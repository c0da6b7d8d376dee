// The sheet of an input and its coefficients, encoded.
ghost use Rattle.std.specs.Prelude.{◌≡◌, ◌*◌, ◌≤◌, length};
ghost use Rattle.frame_encoder.specs.Encode.{encode_answer};
ghost use Rattle.sheet.specs.Sizes.{most_buffer};
ghost use Rattle.input.specs.Input.{sheet_size, coefficients_in};
ghost use Rattle.input.specs.Program.{body_room, program_answer};

use crate::coefficients::read_coefficients;
use bits::Refusal;
use frame::BodyBits;
use sheet::read::byte_at;
use sheet::{MOST_BUFFER, Track};

// Where the sheet ends, by its own length.
#[tactic(auto, unfolding(crate::specs::Input::sheet_size))]
fn sheet_size(input: &[u8]) -> usize
    ensures { (result ≡ sheet_size input.now) × (result ≤ length input.now) }
{
    let length = u16::from_be_bytes([byte_at(input, 0), byte_at(input, 1)]);
    (2 + usize::from(length)).min(input.len())
}

// The buffers of a frame for the most channels, and room for any body.
fn encode_bytes(sheet: &[u8], bytes: &[u8], n: usize) -> Result<BodyBits, Refusal>
    requires { (n ≤ most_buffer) × (length bytes.now ≡ 4 * n) }
    ensures { result ≡ encode_answer sheet.now (coefficients_in n bytes.now) n n n body_room }
{
    let mut coeffs = [0.0f32; MOST_BUFFER];
    let mut exps = [0u8; MOST_BUFFER];
    let mut bap = [0u8; MOST_BUFFER];
    let mut codes = [0u16; MOST_BUFFER];
    let mut body = [0u8; 21504];
    let coeffs = &mut coeffs[..n];
    read_coefficients(bytes, coeffs);
    frame_encoder::encode_body(
        sheet,
        coeffs,
        &mut exps[..n],
        &mut bap[..n],
        &mut codes[..n],
        &mut body,
    )
}

// What the program answers to its whole input. `encode_body` takes the sheet's bytes and checks them once more: only an accepted sheet says
// how many coefficients there must be.
#[tactic(auto, unfolding(crate::specs::Program::program_answer, crate::specs::Input::sheet_in))]
pub fn encode_input(input: &[u8]) -> Result<BodyBits, Refusal>
    ensures { result ≡ program_answer input.now }
{
    let size = sheet_size(input);
    let sheet = &input[..size];
    let bytes = &input[size..];
    let track = Track::from_bytes(sheet)?;
    let n = sheet::buffer_length(track.channels());
    if bytes.len() != 4 * n {
        return Err(Refusal::WrongLength);
    }
    encode_bytes(sheet, bytes, n)
}
