// One field alone, for a host: a call that takes every input.
ghost use Rattle.std.specs.Prelude.{◌≡◌, length};
ghost use Rattle.bits.specs.Answer.{output_of};
ghost use Rattle.bits.specs.Field.{field};
ghost use Rattle.lent_writer.specs.Alone.{field_written};

use crate::lent::write_field;
use bits::Refusal;

// `BitWriter::write_u32(v, n)` at the first bit of an output, closed with zero bits to the byte; answers the number of bits.
#[tactic(auto, unfolding(crate::specs::Alone::field_written, bits::specs::Answer::output_of))]
pub fn write_alone(out: &mut [u8], v: u32, n: u32) -> Result<u32, Refusal>
    ensures value { result ≡ field_written n (length out.old) }
    ensures out_after { out.new ≡ output_of result (field n v) out.old }
{
    if n > 16 {
        return Err(Refusal::OutOfRange);
    }
    if out.len() < n.div_ceil(8) as usize {
        return Err(Refusal::NoRoom);
    }
    write_field(out, v, n);
    Ok(n)
}
