// The list is read record by record: the lengths of a case when packed and unpacked, then the packed case.
ghost use Rattle.std.specs.Prelude.{◌≤◌, IfOk, length};

use crate::calls::CALLS;
use crate::cases::{Outcome, replay};
use crate::lines::Tally;
use crate::packing::unpack;
use crate::parts::number_at;
use std::io;
use std::io::Read;

// The list has no more cases than this.
const MOST_CASES: u32 = 100000;

// The longest case, packed and unpacked.
const MOST_PACKED: usize = 24576;

const MOST_PLAIN: usize = 81920;

// Reads until the buffer is full or the input ends, and returns how many bytes were read. How far one read comes is the reader's choice, so the
// loop is a `while`. std's `read_exact` refuses a short input, and `read_to_end` needs a heap; `encode` has the same lines, since no crate is
// below both programs alone.
fn read_full(from: &mut impl Read, buf: &mut [u8]) -> io::Result<usize>
    ensures { IfOk result (λ n. n ≤ length buf.new) }
{
    let mut done = 0;
    while done < buf.len() {
        let n = from.read(&mut buf[done..])?;
        if n == 0 {
            break;
        }
        done += n;
    }
    Ok(done)
}

// The packed case is read, unpacked and replayed.
fn replayed(from: &mut impl Read, packed: &mut [u8], plain: &mut [u8]) -> io::Result<Outcome>
    requires { (length packed.old ≤ 24576) × (length plain.old ≤ 81920) }
{
    let n = read_full(from, packed)?;
    if n == packed.len() && unpack(packed, plain) {
        Ok(replay(plain))
    } else {
        Ok(Outcome::Damaged)
    }
}

// The next case: eight bytes are its lengths.
fn next(from: &mut impl Read) -> io::Result<Outcome> {
    let mut lengths = [0u8; 8];
    let n = read_full(from, &mut lengths)?;
    if n == 0 {
        return Ok(Outcome::Ended);
    }
    let packed_length = number_at(&lengths, 0) as usize;
    let length = number_at(&lengths, 4) as usize;
    if n < 8 || MOST_PACKED < packed_length || MOST_PLAIN < length {
        return Ok(Outcome::Damaged);
    }
    let mut packed = [0u8; MOST_PACKED];
    let mut plain = [0u8; MOST_PLAIN];
    replayed(from, &mut packed[..packed_length], &mut plain[..length])
}

// Counts the cases of each call, and those that differ. Answers whether the list is whole.
pub(crate) fn each_case(from: &mut impl Read, tallies: &mut [Tally; CALLS]) -> io::Result<bool> {
    for _ in 0..MOST_CASES {
        match next(from)? {
            Outcome::Replayed { call, same } => {
                let tally = &mut tallies[call.index()];
                *tally = tally.with(same);
            }
            Outcome::Ended => return Ok(true),
            Outcome::Damaged => return Ok(false),
        }
    }
    Ok(false)
}
