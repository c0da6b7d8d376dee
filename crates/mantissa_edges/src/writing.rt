// Short mantissa streams, written into sixteen bytes of 255.
ghost use Rattle.std.specs.Prelude.{◌<◌};

use crate::show;
use std::io;

// The largest code of each bap; bap 16 is none. reconstruct_edges has the same table: each test program stands alone.
pub const LARGEST: [u16; 17] = [
    0, 2, 4, 6, 10, 14, 31, 63, 127, 255, 511, 1023, 2047, 4095, 16383, 65535, 0,
];

fn write(rt: &impl Print, out: &mut [u8], bap: &[u8], codes: &[u16]) -> io::Result<()> {
    print!(rt; "write")?;
    show::each(rt, bap)?;
    print!(rt; ",")?;
    show::each(rt, codes)?;
    print!(rt; ":")?;
    show::answer(rt, mantissas::write_mantissa_stream(out, bap, codes))?;
    print!(rt; ",")?;
    show::each(rt, out)?;
    println!(rt; "")
}

// The stream of these baps and codes, into an output of so many bytes.
fn written(rt: &impl Print, bap: &[u8], codes: &[u16], room: usize) -> io::Result<()> {
    let mut out = [255u8; 16];
    if 16 < room {
        return Ok(());
    }
    write(rt, &mut out[0..room], bap, codes)
}

// Document 01, "Edges".
pub(crate) fn starred(rt: &impl Print) -> io::Result<()> {
    written(rt, &[1, 6, 1, 1], &[2, 3, 0, 1], 16)?;
    written(rt, &[4], &[10], 16)
}

fn alone(rt: &impl Print, bap: u8, code: u16) -> io::Result<()> {
    written(rt, &[bap], &[code], 16)
}

// The smallest code, one in the middle, the largest, and the one above it.
fn of_bap(rt: &impl Print, bap: u8) -> io::Result<()>
    requires { bap < 17 }
{
    let largest = LARGEST[usize::from(bap)];
    alone(rt, bap, 0)?;
    alone(rt, bap, largest / 2)?;
    alone(rt, bap, largest)?;
    alone(rt, bap, largest.wrapping_add(1))?;
    alone(rt, bap, 65535)
}

pub(crate) fn each_bap(rt: &impl Print) -> io::Result<()> {
    for bap in 0..17 {
        of_bap(rt, bap)?;
    }
    alone(rt, 255, 0)
}

// The first n of four codes of one bap, with room for them and one byte less.
fn first_of(rt: &impl Print, bap: u8, codes: [u16; 4], n: usize) -> io::Result<()> {
    let baps = [bap; 4];
    if 4 < n {
        return Ok(());
    }
    written(rt, &baps[0..n], &codes[0..n], 16)?;
    written(rt, &baps[0..n], &codes[0..n], 1)?;
    written(rt, &baps[0..n], &codes[0..n], 0)
}

pub(crate) fn members(rt: &impl Print) -> io::Result<()> {
    for n in 0..5 {
        first_of(rt, 1, [1, 2, 0, 2], n)?;
        first_of(rt, 2, [3, 4, 1, 4], n)?;
        first_of(rt, 4, [9, 10, 7, 10], n)?;
        first_of(rt, 3, [6, 1, 5, 2], n)?;
    }
    Ok(())
}

pub(crate) fn mixtures(rt: &impl Print) -> io::Result<()> {
    let ascending = [0, 1, 2, 3, 4, 5, 6, 7, 8, 9, 10, 11, 12, 13, 14, 15];
    let largest = LARGEST;
    written(rt, &ascending, &largest[0..16], 16)?;
    written(rt, &ascending, &largest[0..16], 15)?;
    written(
        rt,
        &[4, 1, 2, 1, 2, 4, 1, 2, 4, 1],
        &[1, 2, 3, 1, 2, 0, 0, 4, 8, 1],
        16,
    )?;
    written(rt, &[0, 2, 0, 5, 0, 2, 0], &[0, 1, 0, 9, 0, 4, 0], 16)?;
    written(rt, &[1, 1, 16], &[0, 0, 0], 16)?;
    written(rt, &[1, 1, 6], &[0, 3, 0], 16)?;
    written(rt, &[1, 1, 6], &[0, 3], 16)?;
    written(rt, &[1, 16], &[0, 3, 0], 0)
}
