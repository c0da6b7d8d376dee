// Faults of the structure: the length, the version, records cut short; how many segments are counted off.
ghost use Rattle.std.specs.Prelude.{◌≤◌};

use crate::sheets::{each, edited, extended, one_channel, part, six_channels};
use std::io;

pub(crate) fn heads(rt: &impl Print) -> io::Result<()> {
    edited(rt, "good", &[])?;
    one_channel(rt, "one channel", &[])?;
    six_channels(rt, "six channels", &[])?;
    edited(rt, "length one less", &[(1, 69)])?;
    edited(rt, "length one more", &[(1, 71)])?;
    edited(rt, "length 256 more", &[(0, 1)])?;
    each(rt, "version", 2, &[0, 1, 2, 255])
}

// The first 2 + n bytes, with the length as it was and with one that matches.
fn cut(rt: &impl Print, n: u8) -> io::Result<()>
    requires { n ≤ 78 }
{
    let size = 2 + usize::from(n);
    print!(rt; "cut after {size}")?;
    part(rt, ", length as it was", &[], size)?;
    print!(rt; "cut after {size}")?;
    part(rt, ", length to match", &[(1, n)], size)
}

pub(crate) fn cuts(rt: &impl Print) -> io::Result<()> {
    part(rt, "no byte", &[], 0)?;
    part(rt, "one byte", &[], 1)?;
    for n in 0..71 {
        cut(rt, n)?;
    }
    Ok(())
}

// The segments of one channel are counted off as nseg is written.
pub(crate) fn segment_counts(rt: &impl Print) -> io::Result<()> {
    extended(rt, "nseg 0", 0, 21, 0, 23)?;
    extended(rt, "nseg 0, a byte more", 0, 22, 0, 24)?;
    extended(rt, "nseg 1, no segment", 0, 21, 1, 23)?;
    extended(rt, "nseg 8", 0, 45, 8, 47)?;
    extended(rt, "nseg 8, a byte less", 0, 44, 8, 46)?;
    extended(rt, "nseg 8, a byte more", 0, 46, 8, 48)?;
    extended(rt, "nseg 9", 0, 48, 9, 50)?;
    extended(rt, "nseg 9, bytes of 8", 0, 45, 9, 47)?;
    extended(rt, "nseg 255", 3, 18, 255, 788)?;
    extended(rt, "nseg 255, a byte less", 3, 17, 255, 787)
}

// The length says at most 65,535, so that a sheet has at most 65,537 bytes.
pub(crate) fn long_sheets(rt: &impl Print) -> io::Result<()> {
    extended(rt, "65536 bytes", 255, 255, 3, 65536)?;
    extended(rt, "65537 bytes, last record cut short", 255, 255, 0, 65537)?;
    extended(rt, "65537 bytes, whole records", 255, 255, 3, 65537)?;
    extended(rt, "65538 bytes", 255, 255, 3, 65538)?;
    extended(rt, "65548 bytes, whole records", 255, 255, 3, 65548)?;
    extended(rt, "65548 bytes, length of 12", 0, 10, 3, 65548)
}

// The structure is looked at before any range.
pub(crate) fn two_faults(rt: &impl Print) -> io::Result<()> {
    edited(rt, "fscod 3, end 38", &[(3, 3), (13, 38)])?;
    edited(rt, "version 2, fscod 3", &[(2, 2), (3, 3)])?;
    edited(rt, "version 2, end 38", &[(2, 2), (13, 38)])?;
    edited(rt, "length one more, fscod 3", &[(1, 71), (3, 3)])?;
    edited(rt, "record cut short, fscod 3", &[(71, 1), (3, 3)])?;
    edited(rt, "record cut short, channel 1 twice", &[(71, 1), (12, 1)])?;
    edited(rt, "nseg 255 of the LFE, end 38", &[(71, 255), (13, 38)])?;
    edited(rt, "version 2, channel 1 twice", &[(2, 2), (12, 1)])
}
