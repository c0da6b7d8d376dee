// The writer of a mantissa stream (the Rust's `write_mantissa_stream`).
ghost use Rattle.std.specs.Prelude.{◌≡◌, ◌*◌, ◌^◌, ◌≤◌, ◌<◌, length, get_or};
ghost use Rattle.bits.specs.Answer.{output_of};
ghost use Rattle.bits.specs.Write.{Ready, Put};
ghost use Rattle.mantissas.specs.Calls.{write_answer};
ghost use Rattle.mantissas.specs.Inner.{group_at, Coded};
ghost use Rattle.mantissas.specs.Ranges.{size, levels};
ghost use Rattle.mantissas.specs.Stream.{stream};

use crate::code::{check_codes, group_sizes, level_table, one_length};
use crate::count::count_mantissas;
use bits::{Refusal, Writer};

// The value of the field that begins at bin i, which n codes of m levels share: its code and those of the next bins of its bap, 0 for each that is missing (document 01, "Mantissas").
// The next group of the bap begins behind the last bin looked at, so all scans together pass a bin once for each grouped bap.
fn group_at(bap: &[u8], codes: &[u16], i: usize, n: u8, m: u32) -> u32
    requires coded { Coded bap.now codes.now }
    requires i_in_bounds { (i < length bap.now) × (n ≡ size (get_or bap.now i 0)) × (m ≡ levels (get_or bap.now i 0)) }
    ensures { result ≡ group_at i bap.now codes.now }
{
    let b = bap[i];
    let mut missing = n;
    let mut v: u32 = 0;
    for j in i..bap.len() {
        if missing == 0 {
            return v;
        }
        if bap[j] == b {
            v = v * m + u32::from(codes[j]);
            missing -= 1;
        }
    }
    v * m.pow(u32::from(missing))
}

// The same; a code that has a field of its own is its value. Both take n and m, which are looked up once for a field.
fn value_at(bap: &[u8], codes: &[u16], i: usize, n: u8, m: u32) -> u32
    requires coded { Coded bap.now codes.now }
    requires i_in_bounds { (i < length bap.now) × (n ≡ size (get_or bap.now i 0)) × (m ≡ levels (get_or bap.now i 0)) }
    ensures { result ≡ group_at i bap.now codes.now }
{
    if n == 1 {
        return u32::from(codes[i]);
    }
    group_at(bap, codes, i, n, m)
}

// Appends the stream of the codes. `left` has, for each bap, how many of its bins to come have their code in a field that is written.
pub fn put_mantissas(out: &mut [u8], w: Writer, bap: &[u8], codes: &[u16]) -> Writer
    requires coded { Coded bap.now codes.now }
    requires ready { Ready w (length out.old) (length (stream bap.now codes.now)) }
    ensures { Put out.old w (stream bap.now codes.now) out.new result }
{
    let sizes = group_sizes();
    let levels = level_table();
    let widths = tables::quantization_bits();
    let mut w = w;
    let mut left = [0u8; 16];
    for (i, &b) in bap.iter().enumerate() {
        let k = usize::from(b);
        if left[k] > 0 {
            left[k] -= 1;
        } else if b > 0 {
            let n = sizes[k];
            let v = value_at(bap, codes, i, n, levels[k]);
            w = bits::put(out, w, v, u32::from(widths[k]));
            left[k] = n - 1;
        }
    }
    w
}

// The stream of the codes from the first bit of the output on, closed with zero bits to the byte; answers the number of its bits.
#[tactic(auto, unfolding(bits::specs::Answer::output_of))]
pub fn write_mantissa_stream(out: &mut [u8], bap: &[u8], codes: &[u16]) -> Result<u32, Refusal>
    ensures value { result ≡ write_answer (length out.old) bap.now codes.now }
    ensures out_after { out.new ≡ output_of result (stream bap.now codes.now) out.old }
{
    if !one_length(bap.len(), codes.len()) {
        return Err(Refusal::WrongLength);
    }
    if !check_codes(bap, codes) {
        return Err(Refusal::BadCode);
    }
    let n = count_mantissas(bap);
    if out.len() < n.div_ceil(8) as usize {
        return Err(Refusal::NoRoom);
    }
    let w = put_mantissas(out, bits::start(), bap, codes);
    bits::finish(out, w);
    Ok(n)
}
