// Replays a fixed list of the Rust's answers: each case of the list is handed to the public call that it is for, and the refusal, the
// values and every buffer afterwards are compared with what the Rust gave. A line for each call says how many cases were run and how many
// differed. The list is on standard input; scripts/make-replay makes it and says its form.
#![tactic(auto)]

pub mod allocation_steps;
pub mod calls;
pub mod cases;
pub mod compare;
pub mod exponent_steps;
pub mod frame_steps;
pub mod lines;
pub mod mantissa_steps;
pub mod packing;
pub mod parts;
pub mod reading;
pub mod reconstruct_steps;
pub mod sheet_steps;

use calls::CALLS;
use lines::Tally;
use std::io;

fn main(rt: HostRuntime) -> io::Result<()> {
    let mut tallies = [Tally::default(); CALLS];
    let whole = reading::each_case(&mut rt.reader(), &mut tallies)?;
    lines::all(&rt, &tallies)?;
    if !whole {
        lines::damaged(&rt)?;
    }
    Ok(())
}
