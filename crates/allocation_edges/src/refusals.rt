// Calls that are turned back, in the order 2, 10, 4, with the buffer left as it was; and what is ignored from end on.
ghost use Rattle.std.specs.Prelude.{◌≤◌};

use crate::allocate::sized;
use crate::channels::{BASE, columns, none};
use crate::exponents::{Rule, flat_but};
use std::io;

// An end, with slices of so many entries.
fn slices(rt: &impl Print, label: &str, end: usize, m: usize, k: usize) -> io::Result<()>
    requires { (m ≤ 257) × (k ≤ 257) }
{
    print!(rt; "{label}")?;
    sized(rt, BASE, none(), Rule::Flat(0).into(), end, m, k)?;
    println!(rt; "")
}

pub(crate) fn ends(rt: &impl Print) -> io::Result<()> {
    slices(rt, "end 0", 0, 40, 40)?;
    slices(rt, "end 6", 6, 40, 40)?;
    slices(rt, "end 8", 8, 40, 40)?;
    slices(rt, "end 34", 34, 40, 40)?;
    slices(rt, "end 36", 36, 40, 40)?;
    slices(rt, "end 38", 38, 40, 40)?;
    slices(rt, "end 254", 254, 256, 256)?;
    slices(rt, "end 256", 256, 256, 256)?;
    slices(rt, "end 2^64 - 1", usize::MAX, 256, 256)
}

pub(crate) fn lengths(rt: &impl Print) -> io::Result<()> {
    slices(rt, "end 38, no exponent", 38, 0, 40)?;
    slices(rt, "one exponent too few", 37, 36, 40)?;
    slices(rt, "one bap too few", 37, 37, 36)?;
    slices(rt, "no bap", 37, 37, 0)?;
    slices(rt, "256 exponents and baps", 37, 256, 256)?;
    slices(rt, "257 exponents", 37, 257, 37)?;
    slices(rt, "257 baps", 37, 37, 257)?;
    slices(rt, "from end on 0", 37, 37, 40)?;
    slices(rt, "from end 7 on 0", 7, 7, 40)
}

// One exponent changed.
fn exponent(
    rt: &impl Print,
    label: &str,
    at: usize,
    other: u8,
    end: usize,
    m: usize,
) -> io::Result<()>
    requires { m ≤ 257 }
{
    print!(rt; "{label}")?;
    sized(rt, BASE, none(), flat_but(0, at, other), end, m, 40)?;
    println!(rt; "")
}

pub(crate) fn exponents(rt: &impl Print) -> io::Result<()> {
    exponent(rt, "first 25", 0, 25, 37, 37)?;
    exponent(rt, "last 25", 36, 25, 37, 37)?;
    exponent(rt, "last 24", 36, 24, 37, 37)?;
    exponent(rt, "end 38, 25", 0, 25, 38, 40)?;
    exponent(rt, "one exponent too few, 25", 0, 25, 37, 36)?;
    exponent(rt, "255 at end", 37, 255, 37, 38)
}

// One value of the segments changed in each; the last is not there.
fn segments(
    rt: &impl Print,
    label: &str,
    nseg: u8,
    offst: [u8; 8],
    len: [u8; 8],
    ba: [u8; 8],
) -> io::Result<()> {
    print!(rt; "{label}")?;
    let segments = columns(nseg, offst, len, ba);
    sized(rt, BASE, segments, flat_but(0, 0, 25), 37, 36, 40)?;
    sized(rt, BASE, segments, Rule::Flat(0).into(), 37, 37, 37)?;
    println!(rt; "")
}

pub(crate) fn ranges(rt: &impl Print) -> io::Result<()> {
    segments(rt, "nseg 9", 9, [0; 8], [1; 8], [7; 8])?;
    segments(rt, "nseg 255", 255, [0; 8], [1; 8], [7; 8])?;
    segments(rt, "first offst 32", 1, [32; 8], [1; 8], [7; 8])?;
    segments(rt, "first len 16", 1, [0; 8], [16; 8], [7; 8])?;
    segments(rt, "first ba 8", 1, [0; 8], [1; 8], [8; 8])?;
    segments(
        rt,
        "eighth offst 32",
        8,
        [0, 0, 0, 0, 0, 0, 0, 32],
        [1; 8],
        [7; 8],
    )?;
    segments(
        rt,
        "eighth len 16",
        8,
        [0; 8],
        [1, 1, 1, 1, 1, 1, 1, 16],
        [7; 8],
    )?;
    segments(
        rt,
        "eighth ba 8",
        8,
        [0; 8],
        [1; 8],
        [7, 7, 7, 7, 7, 7, 7, 8],
    )?;
    segments(
        rt,
        "eighth ba 8, not there",
        7,
        [0; 8],
        [1; 8],
        [7, 7, 7, 7, 7, 7, 7, 8],
    )
}
