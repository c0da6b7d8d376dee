// The edges of the listening copy, document 02, W3: a line for each case, with the refusal's number and what it gave.
// What must be printed is worked out by scripts/reconstruct-edges-stdout, from documents 01 and 02.
#![tactic(auto)]

pub mod bins;
pub mod borders;
pub mod faults;
pub mod frames;
pub mod levels;
pub mod looking;
pub mod show;

use std::io;

fn main(rt: HostRuntime) -> io::Result<()> {
    levels::each_exponent(&rt)?;
    bins::ranges(&rt)?;
    bins::exponents(&rt)?;
    bins::baps(&rt)?;
    bins::two_faults(&rt)?;
    frames::one_channel(&rt)?;
    frames::three_channels(&rt)?;
    faults::together(&rt)?;
    faults::lengths(&rt)?;
    faults::exponents(&rt)?;
    faults::codes(&rt)
}
