// The frame: from coefficients, from exponents and codes, and its reader.
ghost use Rattle.std.specs.Prelude.{◌≡◌, [], ◌∷◌, length, replicate};
ghost use Rattle.std.specs.Result.{result_unwrap_or};
ghost use Rattle.bits.specs.Field.{bits_of};
ghost use Rattle.sheet.specs.Settings.{settings_of};
ghost use Rattle.frame.specs.Answers.{write_answer, body_left, read_answer, read_left, reached, exps_read, bap_read, codes_read};
ghost use Rattle.frame.specs.Body.{body_bits, baps_of};
ghost use Rattle.frame.specs.Reader.{read_frame};
ghost use Rattle.frame_encoder.specs.Codes.{codes_of};
ghost use Rattle.frame_encoder.specs.Encode.{encode_answer, encoded_bits, left};
ghost use Rattle.frame_runs.specs.Runs.{exps_of};
ghost use Rattle.host.specs.Entries.{has_length, sheet_first, returned, if_called, nothing, right_slots};

use crate::results::{return_all, return_one};
use crate::sheet_entry::slot_number;
use bits::number;
use frame::BodyBits;

// What is returned of a frame that is turned back.
const NOTHING: BodyBits = BodyBits {
    counts: [0; 12],
    bits: 0,
};

#[tactic(auto, unfolding(crate::specs::Entries::sheet_first, crate::specs::Entries::returned, crate::specs::Entries::if_called))]
#[unsafe(no_mangle)]
pub extern "C" fn ac3_encode_body(
    sheet: &[u8],
    coeffs: &[f32],
    exps: &mut [u8],
    bap: &mut [u8],
    codes: &mut [u16],
    body: &mut [u8],
    counts: &mut [u32],
) -> u32
    ensures value { result ≡ sheet_first sheet.now (has_length 12 counts.old) (encode_answer sheet.now coeffs.now (length exps.old) (length bap.old) (length codes.old) (length body.old)) }
    ensures counts_after { counts.new ≡ returned 12 (result_unwrap_or (encode_answer sheet.now coeffs.now (length exps.old) (length bap.old) (length codes.old) (length body.old)) nothing).counts counts.old }
    ensures exps_after { exps.new ≡ if_called (has_length 12 counts.old) (left (encode_answer sheet.now coeffs.now (length exps.old) (length bap.old) (length codes.old) (length body.old)) (exps_of (settings_of sheet.now) coeffs.now) exps.old) exps.old }
    ensures bap_after { bap.new ≡ if_called (has_length 12 counts.old) (left (encode_answer sheet.now coeffs.now (length exps.old) (length bap.old) (length codes.old) (length body.old)) (baps_of (settings_of sheet.now) (exps_of (settings_of sheet.now) coeffs.now)) bap.old) bap.old }
    ensures codes_after { codes.new ≡ if_called (has_length 12 counts.old) (left (encode_answer sheet.now coeffs.now (length exps.old) (length bap.old) (length codes.old) (length body.old)) (codes_of (settings_of sheet.now) coeffs.now) codes.old) codes.old }
    ensures body_after { body.new ≡ if_called (has_length 12 counts.old) (body_left (encode_answer sheet.now coeffs.now (length exps.old) (length bap.old) (length codes.old) (length body.old)) (encoded_bits (settings_of sheet.now) coeffs.now) body.old) body.old }
{
    if counts.len() != 12 {
        return slot_number(sheet);
    }
    let answer = frame_encoder::encode_body(sheet, coeffs, exps, bap, codes, body);
    return_all(counts, answer.unwrap_or(NOTHING).counts);
    number(answer)
}

#[tactic(auto, unfolding(crate::specs::Entries::sheet_first, crate::specs::Entries::returned, crate::specs::Entries::if_called))]
#[unsafe(no_mangle)]
pub extern "C" fn ac3_write_body(
    sheet: &[u8],
    exps: &[u8],
    codes: &[u16],
    body: &mut [u8],
    counts: &mut [u32],
) -> u32
    ensures value { result ≡ sheet_first sheet.now (has_length 12 counts.old) (write_answer sheet.now exps.now codes.now (length body.old)) }
    ensures counts_after { counts.new ≡ returned 12 (result_unwrap_or (write_answer sheet.now exps.now codes.now (length body.old)) nothing).counts counts.old }
    ensures body_after { body.new ≡ if_called (has_length 12 counts.old) (body_left (write_answer sheet.now exps.now codes.now (length body.old)) (body_bits (settings_of sheet.now) exps.now codes.now) body.old) body.old }
{
    if counts.len() != 12 {
        return slot_number(sheet);
    }
    let answer = frame_writer::write_body(sheet, exps, codes, body);
    return_all(counts, answer.unwrap_or(NOTHING).counts);
    number(answer)
}

#[tactic(auto, unfolding(crate::specs::Entries::sheet_first, crate::specs::Entries::right_slots, crate::specs::Entries::returned, crate::specs::Entries::if_called))]
#[unsafe(no_mangle)]
pub extern "C" fn ac3_read_body(
    sheet: &[u8],
    input: &[u8],
    exps: &mut [u8],
    bap: &mut [u8],
    codes: &mut [u16],
    counts: &mut [u32],
    bits: &mut [u32],
) -> u32
    ensures value { result ≡ sheet_first sheet.now (right_slots counts.old bits.old) (read_answer sheet.now (bits_of input.now) (length exps.old) (length bap.old) (length codes.old)) }
    ensures counts_after { counts.new ≡ returned 12 (if_called (right_slots counts.old bits.old) (result_unwrap_or (read_answer sheet.now (bits_of input.now) (length exps.old) (length bap.old) (length codes.old)) nothing).counts (replicate 12 0)) counts.old }
    ensures bits_after { bits.new ≡ returned 1 (if_called (right_slots counts.old bits.old) ((result_unwrap_or (read_answer sheet.now (bits_of input.now) (length exps.old) (length bap.old) (length codes.old)) nothing).bits ∷ []) (0 ∷ [])) bits.old }
    ensures exps_after { exps.new ≡ if_called (right_slots counts.old bits.old) (read_left (reached sheet.now (length exps.old) (length bap.old) (length codes.old)) exps_read (read_frame (settings_of sheet.now) (bits_of input.now)) exps.old) exps.old }
    ensures bap_after { bap.new ≡ if_called (right_slots counts.old bits.old) (read_left (reached sheet.now (length exps.old) (length bap.old) (length codes.old)) bap_read (read_frame (settings_of sheet.now) (bits_of input.now)) bap.old) bap.old }
    ensures codes_after { codes.new ≡ if_called (right_slots counts.old bits.old) (read_left (reached sheet.now (length exps.old) (length bap.old) (length codes.old)) codes_read (read_frame (settings_of sheet.now) (bits_of input.now)) codes.old) codes.old }
{
    if counts.len() != 12 {
        return_one(bits, 0);
        return slot_number(sheet);
    }
    if bits.len() != 1 {
        return_all(counts, [0; 12]);
        return slot_number(sheet);
    }
    let answer = frame_reader::read_body(sheet, input, exps, bap, codes);
    let read = answer.unwrap_or(NOTHING);
    return_all(counts, read.counts);
    return_one(bits, read.bits);
    number(answer)
}
