// The edges of the allocation, document 01, "Allocation" and "When a call is turned back": a line for each case, with the refusal's number,
// a sum over the bap buffer and, where it is short, its entries.
// What must be printed is worked out by scripts/allocation-edges-stdout, from A/52 7.2.2 and the published tables.
#![tactic(auto)]

pub mod allocate;
pub mod bins;
pub mod channels;
pub mod codes;
pub mod exponents;
pub mod listed;
pub mod logadd;
pub mod refusals;
pub mod segments;
pub mod show;

use std::io;

fn main(rt: HostRuntime) -> io::Result<()> {
    bins::ends(&rt)?;
    bins::exponents(&rt)?;
    codes::all(&rt)?;
    segments::deltas(&rt)?;
    segments::last_band(&rt)?;
    segments::joined(&rt)?;
    refusals::ends(&rt)?;
    refusals::lengths(&rt)?;
    refusals::exponents(&rt)?;
    refusals::ranges(&rt)?;
    listed::differences(&rt)?;
    listed::mixtures(&rt)?;
    logadd::all(&rt)
}
