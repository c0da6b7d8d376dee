// Each value one below, at and one above its range.
use crate::sheets::each;
use std::io;

pub(crate) fn common_part(rt: &impl Print) -> io::Result<()> {
    each(rt, "fscod", 3, &[0, 2, 3, 255])?;
    each(rt, "lfe", 5, &[2, 255])?;
    each(rt, "sdcycod", 6, &[0, 3, 4])?;
    each(rt, "fdcycod", 7, &[0, 3, 4])?;
    each(rt, "sgaincod", 8, &[0, 3, 4])?;
    each(rt, "dbpbcod", 9, &[0, 3, 4])?;
    each(rt, "floorcod", 10, &[0, 7, 8])?;
    each(rt, "csnroffst", 11, &[0, 63, 64, 255])
}

// Of channel 0, and of the eighth segment of channel 1.
pub(crate) fn records(rt: &impl Print) -> io::Result<()> {
    each(
        rt,
        "end",
        13,
        &[0, 7, 34, 36, 37, 38, 39, 40, 250, 251, 252, 253, 254, 255],
    )?;
    each(rt, "block 0 strategy", 14, &[0, 1, 2, 3, 4])?;
    each(rt, "block 1 strategy", 15, &[0, 3, 4])?;
    each(rt, "block 2 strategy", 16, &[0, 3, 4])?;
    each(rt, "block 3 strategy", 17, &[0, 3, 4])?;
    each(rt, "block 4 strategy", 18, &[0, 3, 4])?;
    each(rt, "block 5 strategy", 19, &[0, 3, 4, 255])?;
    each(rt, "fsnroffst", 20, &[0, 15, 16])?;
    each(rt, "fgaincod", 21, &[0, 7, 8])?;
    each(rt, "offst", 23, &[0, 31, 32])?;
    each(rt, "len", 24, &[0, 15, 16])?;
    each(rt, "ba", 25, &[0, 7, 8])?;
    each(rt, "offst of the eighth segment", 58, &[0, 31, 32])?;
    each(rt, "len of the eighth segment", 59, &[0, 15, 16])?;
    each(rt, "ba of the eighth segment", 60, &[0, 7, 8])
}

// The LFE has end 7, strategies 0 or 1, block 0 never 0.
pub(crate) fn lfe(rt: &impl Print) -> io::Result<()> {
    each(rt, "LFE end", 62, &[6, 7, 8, 37])?;
    each(rt, "LFE block 0 strategy", 63, &[0, 1, 2, 3])?;
    each(rt, "LFE block 3 strategy", 66, &[0, 1, 2, 3])?;
    each(rt, "LFE block 5 strategy", 68, &[0, 1, 2, 3])?;
    each(rt, "LFE fsnroffst", 69, &[0, 15, 16])?;
    each(rt, "LFE fgaincod", 70, &[0, 7, 8])
}
