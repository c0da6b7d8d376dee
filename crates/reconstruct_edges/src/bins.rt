// The refusals of a bin and their order: 4, then 5.
ghost use Rattle.std.specs.Prelude.{◌<◌};

use crate::show;
use reconstruct::reconstruct_mantissa;
use std::io;

// The largest code of each bap (document 01, "Mantissas").
pub const LARGEST: [u16; 16] = [
    0, 2, 4, 6, 10, 14, 31, 63, 127, 255, 511, 1023, 2047, 4095, 16383, 65535,
];

fn bin(rt: &impl Print, exponent: u32, bap: u32, code: u32) -> io::Result<()> {
    print!(rt; "bin {exponent} {bap} {code}:")?;
    show::answer(rt, reconstruct_mantissa(exponent, bap, code))?;
    println!(rt; "")
}

// The last code of a bap and the first past it, at the last exponent and the first past it.
fn range_of(rt: &impl Print, bap: u32) -> io::Result<()>
    requires { bap < 16 }
{
    let largest = u32::from(LARGEST[bap as usize]);
    bin(rt, 24, bap, largest)?;
    bin(rt, 24, bap, largest.wrapping_add(1))?;
    bin(rt, 25, bap, largest)?;
    bin(rt, 25, bap, largest.wrapping_add(1))?;
    bin(rt, 24, bap, 65536)?;
    bin(rt, 24, bap, u32::MAX)
}

pub(crate) fn ranges(rt: &impl Print) -> io::Result<()> {
    for bap in 0..16 {
        range_of(rt, bap)?;
    }
    Ok(())
}

pub(crate) fn exponents(rt: &impl Print) -> io::Result<()> {
    bin(rt, 24, 6, 1)?;
    bin(rt, 25, 6, 1)?;
    bin(rt, 256, 6, 1)?;
    bin(rt, u32::MAX, 6, 1)?;
    bin(rt, 24, 0, 0)?;
    bin(rt, 25, 0, 0)
}

pub(crate) fn baps(rt: &impl Print) -> io::Result<()> {
    bin(rt, 0, 15, 1)?;
    bin(rt, 0, 16, 1)?;
    bin(rt, 0, 256, 0)?;
    bin(rt, 0, 257, 1)?;
    bin(rt, 0, 271, 1)?;
    bin(rt, 0, u32::MAX, 0)
}

// Exponent and bap, exponent and code, bap and code, all three.
pub(crate) fn two_faults(rt: &impl Print) -> io::Result<()> {
    bin(rt, 25, 16, 0)?;
    bin(rt, u32::MAX, u32::MAX, 0)?;
    bin(rt, 25, 6, 32)?;
    bin(rt, 25, 0, 1)?;
    bin(rt, 24, 16, 65536)?;
    bin(rt, 24, u32::MAX, u32::MAX)?;
    bin(rt, 25, 16, 65536)?;
    bin(rt, u32::MAX, u32::MAX, u32::MAX)
}
