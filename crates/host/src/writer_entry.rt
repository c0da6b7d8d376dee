// The writer lent by `&mut`, with one field.
ghost use Rattle.std.specs.Prelude.{◌≡◌, [], ◌∷◌, leb, length};
ghost use Rattle.bits.specs.Answer.{given, output_of};
ghost use Rattle.bits.specs.Field.{field};
ghost use Rattle.lent_writer.specs.Alone.{field_written};
ghost use Rattle.host.specs.Entries.{has_length, range_first, returned, if_called};

use crate::results::return_one;
use bits::{Refusal, number};

#[tactic(auto, unfolding(crate::specs::Entries::range_first, crate::specs::Entries::returned, crate::specs::Entries::if_called))]
#[unsafe(no_mangle)]
pub extern "C" fn ac3_write_u32(out: &mut [u8], v: u32, n: u32, bits: &mut [u32]) -> u32
    ensures value { result ≡ range_first (leb n 16) (has_length 1 bits.old) (field_written n (length out.old)) }
    ensures bits_after { bits.new ≡ returned 1 (given (field_written n (length out.old)) ∷ []) bits.old }
    ensures out_after { out.new ≡ if_called (has_length 1 bits.old) (output_of (field_written n (length out.old)) (field n v) out.old) out.old }
{
    if bits.len() != 1 {
        if n <= 16 {
            return Refusal::WrongLength.number();
        }
        return Refusal::OutOfRange.number();
    }
    let answer = lent_writer::write_alone(out, v, n);
    return_one(bits, answer.unwrap_or(0));
    number(answer)
}
