// The quantiser, the mantissa writer and reader, the count.
ghost use Rattle.std.specs.Prelude.{◌≡◌, [], ◌∷◌, length, replicate};
ghost use Rattle.std.specs.Result.{result_unwrap_or};
ghost use Rattle.bits.specs.Answer.{given, output_of};
ghost use Rattle.bits.specs.Field.{bits_of};
ghost use Rattle.quantiser.specs.Code.{quantised};
ghost use Rattle.mantissas.specs.Blocks.{total_answer};
ghost use Rattle.mantissas.specs.Calls.{write_answer, read_answer, codes_after};
ghost use Rattle.mantissas.specs.Stream.{stream};
ghost use Rattle.host.specs.Entries.{has_length, length_first, sheet_first, returned, if_called};

use crate::results::{return_all, return_one};
use crate::sheet_entry::slot_number;
use bits::{Refusal, number};

#[tactic(auto, unfolding(crate::specs::Entries::length_first, crate::specs::Entries::returned))]
#[unsafe(no_mangle)]
pub extern "C" fn ac3_quantise_mantissa(coeff: f32, exp: u32, bap: u32, code: &mut [u16]) -> u32
    ensures value { result ≡ length_first (has_length 1 code.old) (quantised coeff exp bap) }
    ensures code_after { code.new ≡ returned 1 (given (quantised coeff exp bap) ∷ []) code.old }
{
    if code.len() != 1 {
        return Refusal::WrongLength.number();
    }
    let answer = quantiser::quantise_mantissa(coeff, exp, bap);
    return_one(code, answer.unwrap_or(0));
    number(answer)
}

#[tactic(auto, unfolding(crate::specs::Entries::length_first, crate::specs::Entries::returned, crate::specs::Entries::if_called))]
#[unsafe(no_mangle)]
pub extern "C" fn ac3_write_mantissa_stream(
    out: &mut [u8],
    bap: &[u8],
    codes: &[u16],
    bits: &mut [u32],
) -> u32
    ensures value { result ≡ length_first (has_length 1 bits.old) (write_answer (length out.old) bap.now codes.now) }
    ensures bits_after { bits.new ≡ returned 1 (given (write_answer (length out.old) bap.now codes.now) ∷ []) bits.old }
    ensures out_after { out.new ≡ if_called (has_length 1 bits.old) (output_of (write_answer (length out.old) bap.now codes.now) (stream bap.now codes.now) out.old) out.old }
{
    if bits.len() != 1 {
        return Refusal::WrongLength.number();
    }
    let answer = mantissas::write_mantissa_stream(out, bap, codes);
    return_one(bits, answer.unwrap_or(0));
    number(answer)
}

#[tactic(auto, unfolding(crate::specs::Entries::length_first, crate::specs::Entries::returned, crate::specs::Entries::if_called))]
#[unsafe(no_mangle)]
pub extern "C" fn ac3_read_mantissa_stream(
    input: &[u8],
    bap: &[u8],
    codes: &mut [u16],
    bits: &mut [u32],
) -> u32
    ensures value { result ≡ length_first (has_length 1 bits.old) (read_answer (bits_of input.now) bap.now (length codes.old)) }
    ensures bits_after { bits.new ≡ returned 1 (given (read_answer (bits_of input.now) bap.now (length codes.old)) ∷ []) bits.old }
    ensures codes_after { codes.new ≡ if_called (has_length 1 bits.old) (codes_after (bits_of input.now) bap.now codes.old) codes.old }
{
    if bits.len() != 1 {
        return Refusal::WrongLength.number();
    }
    let answer = mantissas::read_mantissa_stream(input, bap, codes);
    return_one(bits, answer.unwrap_or(0));
    number(answer)
}

#[tactic(auto, unfolding(crate::specs::Entries::sheet_first, crate::specs::Entries::returned))]
#[unsafe(no_mangle)]
pub extern "C" fn ac3_mantissa_bits_total_ends(sheet: &[u8], bap: &[u8], counts: &mut [u32]) -> u32
    ensures value { result ≡ sheet_first sheet.now (has_length 6 counts.old) (total_answer sheet.now bap.now) }
    ensures counts_after { counts.new ≡ returned 6 (result_unwrap_or (total_answer sheet.now bap.now) (replicate 6 0)) counts.old }
{
    if counts.len() != 6 {
        return slot_number(sheet);
    }
    let answer = mantissas::mantissa_bits_total_ends(sheet, bap);
    return_all(counts, answer.unwrap_or([0; 6]));
    number(answer)
}
