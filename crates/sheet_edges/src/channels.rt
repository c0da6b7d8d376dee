// How many channels there are, each of them once, and the segments of the LFE.
use crate::sheets::{each, edited, extended, judge, one_channel, six_channels};
use std::io;

pub(crate) fn counts(rt: &impl Print) -> io::Result<()> {
    one_channel(rt, "nfchans 0", &[(4, 0)])?;
    one_channel(rt, "nfchans 2, one record", &[(4, 2)])?;
    one_channel(rt, "lfe 1, no record of the LFE", &[(5, 1)])?;
    six_channels(rt, "nfchans 4, six records", &[(4, 4)])?;
    six_channels(rt, "nfchans 6", &[(4, 6)])?;
    six_channels(rt, "nfchans 255", &[(4, 255)])?;
    extended(rt, "no record", 0, 10, 0, 12)?;
    extended(rt, "eleven bytes", 0, 9, 0, 11)
}

pub(crate) fn each_once(rt: &impl Print) -> io::Result<()> {
    each(rt, "first record's channel", 12, &[0, 1, 2, 3, 255])?;
    each(rt, "last record's channel", 61, &[0, 1, 2, 3, 255])?;
    edited(rt, "channel n, lfe 0", &[(5, 0)])?;
    one_channel(rt, "channel n alone, lfe 0", &[(12, 1)])?;
    judge(
        rt,
        "channel 0 twice, none missing",
        b"\x00\x20\x01\x00\x01\x00\x00\x00\x00\x00\x00\x00\
        \x00\x25\x01\x00\x00\x00\x00\x00\x00\x00\x00\
        \x00\x25\x01\x00\x00\x00\x00\x00\x00\x00\x00",
    )?;
    judge(
        rt,
        "channels 0 and 1",
        b"\x00\x20\x01\x00\x02\x00\x00\x00\x00\x00\x00\x00\
        \x00\x25\x01\x00\x00\x00\x00\x00\x00\x00\x00\
        \x01\x25\x01\x00\x00\x00\x00\x00\x00\x00\x00",
    )?;
    judge(
        rt,
        "channels 1 and 0",
        b"\x00\x20\x01\x00\x02\x00\x00\x00\x00\x00\x00\x00\
        \x01\x25\x01\x00\x00\x00\x00\x00\x00\x00\x00\
        \x00\x25\x01\x00\x00\x00\x00\x00\x00\x00\x00",
    )
}

// The LFE has no segment.
pub(crate) fn lfe(rt: &impl Print) -> io::Result<()> {
    judge(
        rt,
        "LFE with a segment",
        b"\x00\x23\x01\x00\x01\x01\x00\x00\x00\x00\x00\x00\
        \x00\x25\x01\x00\x00\x00\x00\x00\x00\x00\x00\
        \x01\x07\x01\x00\x00\x00\x00\x00\x00\x00\x01\x00\x00\x00",
    )?;
    judge(
        rt,
        "LFE without a segment",
        b"\x00\x20\x01\x00\x01\x01\x00\x00\x00\x00\x00\x00\
        \x00\x25\x01\x00\x00\x00\x00\x00\x00\x00\x00\
        \x01\x07\x01\x00\x00\x00\x00\x00\x00\x00\x00",
    )
}
