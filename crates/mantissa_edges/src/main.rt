// The edges of the mantissa steps, document 01, "Mantissas" and "Edges": a line for each case, with the refusal's number and what it gave.
// What must be printed is worked out by scripts/mantissa-edges-stdout, from document 01 and the Rust.
#![tactic(auto)]

pub mod blocks;
pub mod coefficients;
pub mod large;
pub mod reading;
pub mod show;
pub mod writing;

use std::io;

fn main(rt: HostRuntime) -> io::Result<()> {
    writing::starred(&rt)?;
    writing::each_bap(&rt)?;
    writing::members(&rt)?;
    writing::mixtures(&rt)?;
    reading::values(&rt)?;
    reading::cut_short(&rt)?;
    large::streams(&rt)?;
    coefficients::starred(&rt)?;
    coefficients::each_bap(&rt)?;
    coefficients::ties(&rt)?;
    coefficients::all_halves(&rt)?;
    coefficients::exponents(&rt)?;
    blocks::lengths(&rt)?;
    blocks::ends(&rt)?;
    blocks::each_bap(&rt)
}
