// The reader of a mantissa stream (A/52 7.3.5; the Rust has none).
ghost use Rattle.std.specs.Prelude.{◌≡◌, ◌∷◌, ◌+◌, ◌*◌, ◌^◌, ◌≤◌, ◌<◌, length, MatchResult};
ghost use Rattle.bits.specs.Field.{bits_of};
ghost use Rattle.bits.specs.Read.{from, Came};
ghost use Rattle.mantissas.specs.Calls.{most_entries, read_answer, codes_after};
ghost use Rattle.mantissas.specs.Ranges.{size};
ghost use Rattle.mantissas.specs.Inner.{GroupRead, Below};
ghost use Rattle.mantissas.specs.Pending.{waiting};
ghost use Rattle.mantissas.specs.Stream.{read_stream};

use crate::code::{check_baps, one_length, size, values, width};
use bits::{Fault, Refusal};

// What waits of the last field of a bap: how many codes, and their value. Document 01 names this form, the group's state by value: so it is no `Option`.
#[derive(Clone, Copy, Debug, PartialEq, Eq)]
pub struct Pending {
    pub left: u8,
    pub value: u16,
}

const NOTHING: Pending = Pending { left: 0, value: 0 };

impl Pending {
    // The first of the codes of bap b that wait, and what waits then.
    fn next(self, b: u8) -> (u16, Pending)
        requires { (b < 16) × (1 ≤ self.left) × (self.left ≤ size b) }
        ensures codes { waiting b self ≡ result.0 ∷ waiting b result.1 }
        ensures left { result.1.left + 1 ≡ self.left }
    {
        let left = self.left - 1;
        let rest = values(b, left);
        let value = u32::from(self.value);
        (
            (value / rest) as u16,
            Pending {
                left,
                value: (value % rest) as u16,
            },
        )
    }
}

// The value of a group of bap b at pos, or the fault.
fn read_group(input: &[u8], pos: usize, b: u8) -> Result<u16, Fault>
    requires { (b < 16) × (pos ≤ 8 * length input.now) }
    ensures { GroupRead b (bits_of input.now) pos result }
{
    let past = Fault {
        refusal: Refusal::PastInput,
        pos,
    };
    let v = bits::get(input, pos, width(b)).ok_or(past)?;
    let limit = values(b, size(b));
    if v >= limit {
        return Err(Fault {
            refusal: Refusal::NoCode,
            pos,
        });
    }
    Ok(v as u16)
}

// Reads the codes of the baps at pos.
pub fn get_mantissas(
    input: &[u8],
    pos: usize,
    bap: &[u8],
    codes: &mut [u16],
) -> Result<usize, Fault>
    requires pos_bound { (pos ≤ 8 * length input.now) × (pos < 2 ^ 32) }
    requires bap_len { (length bap.now ≡ length codes.old) × (length bap.now ≤ most_entries) }
    requires below { Below 16 bap.now }
    ensures came { Came (read_stream bap.now (from pos (bits_of input.now))) codes.new (bits_of input.now) pos result }
    ensures pos_bound_2 { MatchResult result (λ end. end ≤ pos + 16 * length bap.now) (λ f. f.pos ≤ pos + 16 * length bap.now) }
{
    let mut at = pos;
    let mut pending = [NOTHING; 16];
    for (i, &b) in bap.iter().enumerate() {
        let mut group = pending[usize::from(b)];
        if group.left == 0 {
            group = Pending {
                left: size(b),
                value: read_group(input, at, b)?,
            };
            at += width(b) as usize;
        }
        let (code, rest) = group.next(b);
        codes[i] = code;
        pending[usize::from(b)] = rest;
    }
    Ok(at)
}

// The codes of a stream that begins at the first bit of the input; answers how many bits were read. A fault leaves every code 0.
pub fn read_mantissa_stream(input: &[u8], bap: &[u8], codes: &mut [u16]) -> Result<u32, Refusal>
    ensures value { result ≡ read_answer (bits_of input.now) bap.now (length codes.old) }
    ensures codes_after { codes.new ≡ codes_after (bits_of input.now) bap.now codes.old }
{
    if !one_length(bap.len(), codes.len()) {
        return Err(Refusal::WrongLength);
    }
    if !check_baps(bap) {
        return Err(Refusal::BadCode);
    }
    match get_mantissas(input, 0, bap, codes) {
        Ok(end) => Ok(end as u32),
        Err(fault) => {
            codes.fill(0);
            Err(fault.refusal)
        }
    }
}
