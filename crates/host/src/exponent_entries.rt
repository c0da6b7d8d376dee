// The exponent writer and reader.
ghost use Rattle.std.specs.Prelude.{◌≡◌, [], ◌∷◌, length, take};
ghost use Rattle.bits.specs.Answer.{given, output_of};
ghost use Rattle.bits.specs.Field.{bits_of};
ghost use Rattle.exponents.specs.Calls.{in_range, exponents_written, exponents_read, exponents_left};
ghost use Rattle.exponents.specs.Groups.{exponent_bits};
ghost use Rattle.host.specs.Entries.{has_length, range_first, returned, if_called};

use crate::results::return_one;
use bits::{Refusal, number};

#[tactic(auto, unfolding(crate::specs::Entries::range_first, crate::specs::Entries::returned, crate::specs::Entries::if_called))]
#[unsafe(no_mangle)]
pub extern "C" fn ac3_write_exponents_grouped(
    out: &mut [u8],
    exp: &[u8],
    end: usize,
    grpsize: usize,
    bits: &mut [u32],
) -> u32
    ensures value { result ≡ range_first (in_range end grpsize) (has_length 1 bits.old) (exponents_written exp.now end grpsize (length out.old)) }
    ensures bits_after { bits.new ≡ returned 1 (given (exponents_written exp.now end grpsize (length out.old)) ∷ []) bits.old }
    ensures out_after { out.new ≡ if_called (has_length 1 bits.old) (output_of (exponents_written exp.now end grpsize (length out.old)) (exponent_bits grpsize (take end exp.now)) out.old) out.old }
{
    if bits.len() != 1 {
        if exponents::in_range(end, grpsize) {
            return Refusal::WrongLength.number();
        }
        return Refusal::OutOfRange.number();
    }
    let answer = exponents::write_exponents_grouped(out, exp, end, grpsize);
    return_one(bits, answer.unwrap_or(0));
    number(answer)
}

#[tactic(auto, unfolding(crate::specs::Entries::range_first, crate::specs::Entries::returned, crate::specs::Entries::if_called))]
#[unsafe(no_mangle)]
pub extern "C" fn ac3_read_exponents_grouped(
    input: &[u8],
    exp: &mut [u8],
    end: usize,
    grpsize: usize,
    bits: &mut [u32],
) -> u32
    ensures value { result ≡ range_first (in_range end grpsize) (has_length 1 bits.old) (exponents_read (bits_of input.now) end grpsize (length exp.old)) }
    ensures bits_after { bits.new ≡ returned 1 (given (exponents_read (bits_of input.now) end grpsize (length exp.old)) ∷ []) bits.old }
    ensures exp_after { exp.new ≡ if_called (has_length 1 bits.old) (exponents_left (bits_of input.now) end grpsize exp.old) exp.old }
{
    if bits.len() != 1 {
        if exponents::in_range(end, grpsize) {
            return Refusal::WrongLength.number();
        }
        return Refusal::OutOfRange.number();
    }
    let answer = exponents::read_exponents_grouped(input, end, grpsize, exp);
    return_one(bits, answer.unwrap_or(0));
    number(answer)
}
