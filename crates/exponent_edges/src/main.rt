// The edges of the exponent steps, document 01, "Exponents" and "Edges": a line for each case, with its parameters, the number of the
// answer, and what is left in the buffer. What must be printed is worked out by scripts/exponent-edges-stdout, from document 01 and the Rust.
#![tactic(auto)]

pub mod cases;
pub mod codes;
pub mod picks;
pub mod print;
pub mod selects;
pub mod shapes;

use std::io;

fn main(rt: HostRuntime) -> io::Result<()> {
    shapes::starred(&rt)?;
    shapes::lengths(&rt, &[0, 1, 2, 3, 36, 37, 38, 39, 40, 252, 253, 254, 255])?;
    shapes::length(&rt, 256)?;
    shapes::length(&rt, 257)?;
    picks::extracted(&rt)?;
    picks::groups(&rt)?;
    picks::costs(&rt)?;
    codes::rules(&rt)?;
    codes::refused(&rt)?;
    codes::not_shaped(&rt)?;
    codes::groups_read(&rt)?;
    codes::pads_read(&rt)?;
    codes::long_slices(&rt)?;
    selects::selected(&rt)?;
    selects::refused(&rt)
}
