// Inputs of docs/DIFFERENCES.md, and mixtures of all codes.
ghost use Rattle.std.specs.Prelude.{◌≤◌};

use crate::allocate::{allocated, segmented};
use crate::channels::{Codes, Segments, ZERO, columns};
use crate::exponents::Rule;
use std::io;

fn listed(rt: &impl Print, label: &str, codes: Codes, rule: Rule, end: usize) -> io::Result<()>
    requires { end ≤ 257 }
{
    print!(rt; "{label}")?;
    allocated(rt, codes, rule.into(), end)?;
    println!(rt; "")
}

pub(crate) fn differences(rt: &impl Print) -> io::Result<()> {
    let band_25 = Codes {
        fscod: 1,
        csnroffst: 14,
        fsnroffst: 5,
        ..ZERO
    };
    let band_28 = Codes {
        fscod: 1,
        csnroffst: 1,
        fsnroffst: 9,
        fgaincod: 7,
        ..ZERO
    };
    let band_34 = Codes {
        fsnroffst: 1,
        ..band_28
    };
    let offsets_0 = Codes {
        fgaincod: 7,
        ..ZERO
    };
    listed(rt, "44.1 kHz, band 25", band_25, Rule::Shaped(17), 37)?;
    listed(rt, "44.1 kHz, band 28", band_28, Rule::Shaped(11), 37)?;
    listed(rt, "44.1 kHz, band 34", band_34, Rule::Shaped(11), 49)?;
    listed(rt, "offsets 0", offsets_0, Rule::Flat(0), 37)
}

// Codes and segments that a number below 256 stands for.
fn codes_of(seed: u8) -> Codes {
    Codes {
        fscod: seed % 3,
        sdcycod: seed / 3 % 4,
        fdcycod: seed / 2 % 4,
        sgaincod: seed / 5 % 4,
        dbpbcod: seed % 4,
        floorcod: seed % 8,
        csnroffst: seed % 64,
        fsnroffst: seed % 16,
        fgaincod: seed / 4 % 8,
    }
}

fn segments_of(seed: u8) -> Segments {
    columns(seed % 9, [seed % 7; 8], [seed % 5; 8], [seed % 8; 8])
}

fn mixture(rt: &impl Print, seed: u8) -> io::Result<()> {
    print!(rt; "mixture {seed}")?;
    segmented(
        rt,
        codes_of(seed),
        segments_of(seed),
        Rule::Spread(seed).into(),
        253,
    )?;
    segmented(
        rt,
        codes_of(seed),
        segments_of(seed),
        Rule::Slope(seed).into(),
        133,
    )?;
    println!(rt; "")
}

pub(crate) fn mixtures(rt: &impl Print) -> io::Result<()> {
    for k in 0..36 {
        mixture(rt, 7 * k)?;
    }
    Ok(())
}
