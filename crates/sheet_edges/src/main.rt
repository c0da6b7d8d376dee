// The edges of the sheet check, document 01, "The track sheet" and "Edges", and document 02, W1: a line for each case, with the number of
// the answer. What must be printed is worked out by scripts/sheet-edges-stdout, from these documents alone.
#![tactic(auto)]

pub mod channels;
pub mod order;
pub mod sheets;
pub mod structure;
pub mod values;

use std::io;

fn main(rt: HostRuntime) -> io::Result<()> {
    structure::heads(&rt)?;
    structure::cuts(&rt)?;
    structure::segment_counts(&rt)?;
    structure::long_sheets(&rt)?;
    structure::two_faults(&rt)?;
    values::common_part(&rt)?;
    values::records(&rt)?;
    values::lfe(&rt)?;
    channels::counts(&rt)?;
    channels::each_once(&rt)?;
    channels::lfe(&rt)?;
    order::places_of_the_lfe(&rt)?;
    order::not_each_once(&rt)?;
    order::other_faults(&rt)?;
    order::every_order(&rt)
}
