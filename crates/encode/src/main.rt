// The program of document 01: a track sheet and coefficients on standard input; the exponent and mantissa bits of the six blocks and
// their sum on standard output, or the number of the refusal.
#![tactic(auto)]

ghost use Rattle.std.specs.Prelude.{◌≤◌, IfOk, length};

use std::io;
use std::io::Read;

// Reads until the buffer is full or the input ends, and returns how many bytes were read. How far one read comes is the reader's choice, so the
// loop is a `while`. std's `read_exact` refuses a short input, and `read_to_end` needs a heap; `replay` has the same lines, since no crate is
// below both programs alone.
fn read_full(from: &mut impl Read, buf: &mut [u8]) -> io::Result<usize>
    ensures { IfOk result (λ n. n ≤ length buf.new) }
{
    let mut done = 0;
    while done < buf.len() {
        let n = from.read(&mut buf[done..])?;
        if n == 0 {
            break;
        }
        done += n;
    }
    Ok(done)
}

// Six exponent counts, then six mantissa counts.
fn lines(rt: &impl Print, counts: [u32; 12]) -> io::Result<()> {
    for block in 0..6 {
        println!(rt; "block {block} {} {}", counts[block], counts[6 + block])?;
    }
    Ok(())
}

// The longest sheet has 65,537 bytes and the most coefficients 36,864: a longer input is seen to be too long.
fn main(rt: HostRuntime) -> io::Result<()> {
    let mut input = [0u8; 103000];
    let n = read_full(&mut rt.reader(), &mut input)?;
    match input::encode_input(&input[..n]) {
        Ok(body) => {
            lines(&rt, body.counts)?;
            // the sum of the twelve: frame/specs/Theorems.antt, `body-count`
            println!(rt; "total {}", body.bits)
        }
        Err(refusal) => println!(rt; "refused {refusal}"),
    }
}
