// Delta segments: every delta, the last band, bands past it, segments that are not there.
use crate::allocate::segmented;
use crate::channels::{BASE, Segments, columns};
use crate::exponents::Rule;
use std::io;

// The three ways: all bands, the bands of end 37, those of the LFE.
fn ways(rt: &impl Print, segments: Segments) -> io::Result<()> {
    segmented(rt, BASE, segments, Rule::Spread(0).into(), 253)?;
    segmented(rt, BASE, segments, Rule::Slope(0).into(), 37)?;
    segmented(rt, BASE, segments, Rule::Slope(0).into(), 7)?;
    println!(rt; "")
}

fn case(
    rt: &impl Print,
    label: &str,
    nseg: u8,
    offst: [u8; 8],
    len: [u8; 8],
    ba: [u8; 8],
) -> io::Result<()> {
    print!(rt; "{label}")?;
    ways(rt, columns(nseg, offst, len, ba))
}

// The codes 0..7, and 8, which is refused.
pub(crate) fn deltas(rt: &impl Print) -> io::Result<()> {
    for ba in 0..9 {
        print!(rt; "ba {ba}")?;
        ways(rt, columns(1, [3; 8], [15; 8], [ba; 8]))?;
    }
    Ok(())
}

pub(crate) fn last_band(rt: &impl Print) -> io::Result<()> {
    case(
        rt,
        "eight segments, one band each, the eighth at band 49",
        8,
        [31, 11, 0, 0, 0, 0, 0, 0],
        [1; 8],
        [7, 6, 5, 4, 3, 2, 1, 0],
    )?;
    case(
        rt,
        "eight segments at band 49, the eighth not empty",
        8,
        [31, 18, 0, 0, 0, 0, 0, 0],
        [0, 0, 0, 0, 0, 0, 0, 1],
        [7, 7, 7, 7, 7, 7, 7, 0],
    )?;
    case(
        rt,
        "from band 49 past it",
        2,
        [31, 18, 0, 0, 0, 0, 0, 0],
        [0, 15, 0, 0, 0, 0, 0, 0],
        [0; 8],
    )?;
    case(
        rt,
        "from band 50 on",
        2,
        [31, 19, 0, 0, 0, 0, 0, 0],
        [0, 15, 0, 0, 0, 0, 0, 0],
        [0; 8],
    )?;
    case(rt, "up to band 367", 8, [31; 8], [15; 8], [0; 8])
}

pub(crate) fn joined(rt: &impl Print) -> io::Result<()> {
    case(rt, "no segment", 0, [255; 8], [255; 8], [255; 8])?;
    case(rt, "empty segments", 8, [0; 8], [0; 8], [7; 8])?;
    case(
        rt,
        "bands 0 to 119",
        8,
        [0; 8],
        [15; 8],
        [7, 0, 6, 1, 5, 2, 4, 3],
    )?;
    case(
        rt,
        "two that touch",
        2,
        [5, 0, 0, 0, 0, 0, 0, 0],
        [3, 3, 0, 0, 0, 0, 0, 0],
        [7, 0, 0, 0, 0, 0, 0, 0],
    )?;
    case(
        rt,
        "the second not there",
        1,
        [5, 32, 0, 0, 0, 0, 0, 0],
        [3, 16, 0, 0, 0, 0, 0, 0],
        [7, 8, 0, 0, 0, 0, 0, 0],
    )
}
