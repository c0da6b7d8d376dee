// The mantissa bits of a frame's six blocks.
use crate::show;
use std::io;

// A bap below end in each channel's part, another from end on.
fn bap_at(i: usize, end: usize, below: u8, beyond: u8) -> u8 {
    if i % 256 < end { below } else { beyond }
}

fn fill(bap: &mut [u8], end: usize, below: u8, beyond: u8) {
    for (i, bin) in bap.iter_mut().enumerate() {
        *bin = bap_at(i, end, below, beyond);
    }
}

// A buffer of so many baps, filled like that with one changed.
fn total(
    rt: &impl Print,
    sheet: &[u8],
    size: usize,
    end: usize,
    below: u8,
    beyond: u8,
    at: usize,
    value: u8,
) -> io::Result<()> {
    let mut bap = [0u8; 3080];
    if 3080 < size {
        return Ok(());
    }
    if 3080 <= at {
        return Ok(());
    }
    fill(&mut bap, end, below, beyond);
    bap[at] = value;
    print!(rt; "total {size} {end} {below} {beyond} {at} {value}:")?;
    match mantissas::mantissa_bits_total_ends(sheet, &bap[0..size]) {
        Ok(counts) => {
            print!(rt; " 0")?;
            show::each(rt, &counts)?;
        }
        Err(refusal) => print!(rt; " {refusal} 0 0 0 0 0 0")?,
    }
    println!(rt; "")
}

// Document 01's example, one channel of end 37.
fn one_channel(
    rt: &impl Print,
    size: usize,
    below: u8,
    beyond: u8,
    at: usize,
    value: u8,
) -> io::Result<()> {
    let sheet = b"\x00\x15\x01\x00\x01\x00\x00\x00\x00\x00\x00\x00\
        \x00\x25\x01\x00\x00\x00\x00\x00\x00\x00\x00";
    total(rt, sheet, size, 37, below, beyond, at, value)
}

// Two channels of end 37: groups run on from the first to the second.
fn two_channels(
    rt: &impl Print,
    size: usize,
    below: u8,
    beyond: u8,
    at: usize,
    value: u8,
) -> io::Result<()> {
    let sheet = b"\x00\x20\x01\x00\x02\x00\x00\x00\x00\x00\x00\x00\
        \x00\x25\x01\x00\x00\x00\x00\x00\x00\x00\x00\
        \x01\x25\x01\x00\x00\x00\x00\x00\x00\x00\x00";
    total(rt, sheet, size, 37, below, beyond, at, value)
}

pub(crate) fn lengths(rt: &impl Print) -> io::Result<()> {
    one_channel(rt, 1536, 1, 255, 0, 1)?;
    one_channel(rt, 1535, 1, 255, 0, 1)?;
    one_channel(rt, 1537, 1, 255, 0, 1)?;
    one_channel(rt, 0, 1, 255, 0, 1)?;
    two_channels(rt, 3072, 1, 255, 0, 1)?;
    two_channels(rt, 3071, 1, 255, 0, 1)?;
    two_channels(rt, 3073, 1, 255, 0, 1)?;
    two_channels(rt, 1536, 1, 255, 0, 16)?;
    total(rt, b"", 1536, 37, 1, 1, 0, 1)
}

// The last bap below end, the first from end on, and those of the last block.
pub(crate) fn ends(rt: &impl Print) -> io::Result<()> {
    one_channel(rt, 1536, 1, 0, 36, 16)?;
    one_channel(rt, 1536, 1, 0, 37, 16)?;
    one_channel(rt, 1536, 1, 0, 1316, 255)?;
    one_channel(rt, 1536, 1, 0, 1317, 255)?;
    two_channels(rt, 3072, 1, 0, 2852, 16)?;
    two_channels(rt, 3072, 1, 0, 2853, 16)?;
    two_channels(rt, 3072, 1, 0, 36, 15)
}

fn in_each_channel(rt: &impl Print, bap: u8) -> io::Result<()> {
    one_channel(rt, 1536, bap, 16, 0, bap)?;
    two_channels(rt, 3072, bap, 16, 0, bap)?;
    two_channels(rt, 3072, bap, 16, 260, 4)
}

pub(crate) fn each_bap(rt: &impl Print) -> io::Result<()> {
    for bap in 0..17 {
        in_each_channel(rt, bap)?;
    }
    Ok(())
}
