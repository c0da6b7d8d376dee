// The codes of coefficients, which are given by their bits.
use crate::show;
use std::io;

fn code(rt: &impl Print, pattern: u32, exponent: u32, bap: u32) -> io::Result<()> {
    let coefficient = shaping::coefficient_of(pattern);
    print!(rt; "code {pattern} {exponent} {bap}:")?;
    show::answer(
        rt,
        quantiser::quantise_mantissa(coefficient, exponent, bap).map(u32::from),
    )?;
    println!(rt; "")
}

// Document 01, "Edges": -1, 31/32 and -1/32.
pub(crate) fn starred(rt: &impl Print) -> io::Result<()> {
    code(rt, 0xbf800000, 0, 6)?;
    code(rt, 0x3f780000, 0, 6)?;
    code(rt, 0xbd000000, 0, 6)
}

// A coefficient at exponent 0 with each bap, and one that is none.
fn with_each_bap(rt: &impl Print, pattern: u32) -> io::Result<()> {
    for bap in 0..17 {
        code(rt, pattern, 0, bap)?;
    }
    Ok(())
}

fn each_of(rt: &impl Print, patterns: &[u32]) -> io::Result<()> {
    for &pattern in patterns {
        with_each_bap(rt, pattern)?;
    }
    Ok(())
}

// Zeros, subnormal numbers, the ends of the range and beyond, infinities, and some levels.
pub(crate) fn each_bap(rt: &impl Print) -> io::Result<()> {
    each_of(
        rt,
        &[
            0x00000000, 0x80000000, 0x00000001, 0x807fffff, 0x00800000, 0x3f800000, 0xbf800000,
            0x3f800001, 0xbf800001, 0x3f7fffff, 0xbf7fffff, 0x40000000, 0xc2c80000, 0x7f7fffff,
            0xff7fffff, 0x7f800000, 0xff800000, 0x3f000000, 0xbf000000, 0x3e800000, 0xbe800000,
            0x3f400000, 0xbf400000, 0x3f2aaaab, 0xbf2aaaaa,
        ],
    )
}

// Half a step of a bap, a step and a half, and half a step below 1, of both signs: 2^-bits, 3 * 2^-bits and 1 - 2^-bits.
// `half` and `top` are the patterns of the first and the last.
fn halves(rt: &impl Print, bap: u32, half: u32, top: u32) -> io::Result<()> {
    around(rt, &[half, half.wrapping_add(0x80000000)], bap)?;
    around(rt, &[half.wrapping_add(0x00c00000)], bap)?;
    around(rt, &[half.wrapping_add(0x80c00000)], bap)?;
    around(rt, &[top, top.wrapping_add(0x80000000)], bap)
}

// Each pattern, and the ones below and above it.
fn around(rt: &impl Print, patterns: &[u32], bap: u32) -> io::Result<()> {
    for pattern in patterns {
        code(rt, pattern.wrapping_sub(1), 0, bap)?;
        code(rt, *pattern, 0, bap)?;
        code(rt, pattern.wrapping_add(1), 0, bap)?;
    }
    Ok(())
}

// Midway between the levels of bap 1 to 5.
pub(crate) fn ties(rt: &impl Print) -> io::Result<()> {
    around(rt, &[0xbeaaaaab, 0x3eaaaaab], 1)?;
    around(rt, &[0xbf19999a, 0xbe4ccccd, 0x3e4ccccd, 0x3f19999a], 2)?;
    around(
        rt,
        &[
            0xbf36db6e, 0xbedb6db7, 0xbe124925, 0x3e124925, 0x3edb6db7, 0x3f36db6e,
        ],
        3,
    )?;
    eleven_levels(rt)?;
    fifteen_levels(rt)
}

fn eleven_levels(rt: &impl Print) -> io::Result<()> {
    around(
        rt,
        &[
            0xbf51745d, 0xbf22e8ba, 0xbee8ba2f, 0xbe8ba2e9, 0xbdba2e8c, 0x3dba2e8c, 0x3e8ba2e9,
            0x3ee8ba2f, 0x3f22e8ba, 0x3f51745d,
        ],
        4,
    )
}

fn fifteen_levels(rt: &impl Print) -> io::Result<()> {
    around(
        rt,
        &[
            0xbf5dddde, 0xbf3bbbbc, 0xbf19999a, 0xbeeeeeef, 0xbeaaaaab, 0xbe4ccccd, 0xbd888889,
            0x3d888889, 0x3e4ccccd, 0x3eaaaaab, 0x3eeeeeef, 0x3f19999a, 0x3f3bbbbc, 0x3f5dddde,
        ],
        5,
    )
}

pub(crate) fn all_halves(rt: &impl Print) -> io::Result<()> {
    halves(rt, 6, 0x3d000000, 0x3f780000)?;
    halves(rt, 7, 0x3c800000, 0x3f7c0000)?;
    halves(rt, 8, 0x3c000000, 0x3f7e0000)?;
    halves(rt, 9, 0x3b800000, 0x3f7f0000)?;
    halves(rt, 10, 0x3b000000, 0x3f7f8000)?;
    halves(rt, 11, 0x3a800000, 0x3f7fc000)?;
    halves(rt, 12, 0x3a000000, 0x3f7fe000)?;
    halves(rt, 13, 0x39800000, 0x3f7ff000)?;
    halves(rt, 14, 0x38800000, 0x3f7ffc00)?;
    halves(rt, 15, 0x37800000, 0x3f7fff00)
}

// Some coefficients at an exponent: 2^-24, -3 * 2^-26, the smallest normal number, the lowest subnormal one, and 1.
fn at_exponents(rt: &impl Print, exponent: u32) -> io::Result<()> {
    code(rt, 0x33800000, exponent, 8)?;
    code(rt, 0xb3400000, exponent, 15)?;
    code(rt, 0x00800000, exponent, 15)?;
    code(rt, 0x807fffff, exponent, 2)?;
    code(rt, 0x3f800000, exponent, 1)
}

pub(crate) fn exponents(rt: &impl Print) -> io::Result<()> {
    for exponent in 0..26 {
        at_exponents(rt, exponent)?;
    }
    code(rt, 0x7f800000, 25, 16)?;
    code(rt, 0x7fc00000, 25, 16)?;
    code(rt, 0, 25, 16)?;
    code(rt, 0, 24, 16)?;
    code(rt, 0, u32::MAX, 0)?;
    code(rt, 0, 0, u32::MAX)?;
    code(rt, 0, 0, 256)
}
