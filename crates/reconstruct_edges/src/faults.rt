// The refusals of a frame and their order, 1, 2, 11, 10, 4, 5. Both outputs hold a mark before the call, and a refusal leaves them.
// The frame is one under the sheet of three channels: exponents 12, codes 0.
ghost use Rattle.std.specs.Prelude.{◌<◌, ◌≤◌, length};

use crate::frames::sheet_of_three;
use crate::show;
use std::io;

// The marks, 165 and 2: no flag and no level.
fn changed_flags(flags: &[u8]) -> usize {
    flags.iter().filter(|&&flag| flag != 165).count()
}

fn changed_levels(levels: &[f32]) -> usize {
    levels
        .iter()
        .filter(|&&level| show::pattern_of(level) != 0x40000000)
        .count()
}

// The answer, and how many entries of each output are not what they were.
fn answer(
    rt: &impl Print,
    sheet: &[u8],
    exps: &[u8],
    codes: &[u16],
    flags: &mut [u8],
    levels: &mut [f32],
) -> io::Result<()> {
    let answer = reconstruct::reconstruct_body(sheet, exps, codes, flags, levels);
    println!(rt;
        ": {} {} {}",
        show::number_of(&answer),
        changed_flags(flags),
        changed_levels(levels)
    )
}

// How many entries the four buffers of a call have.
#[derive(Clone, Copy)]
struct Sizes {
    exps: usize,
    codes: usize,
    flags: usize,
    levels: usize,
    ghost held: { (exps ≤ 4609) × (codes ≤ 4609) × (flags ≤ 4609) × (levels ≤ 4609) },
}

// Those of the sheet of three channels.
const WHOLE: Sizes = Sizes {
    exps: 4608,
    codes: 4608,
    flags: 4608,
    levels: 4608,
};

// The frame with this exponent and this code at one place, in four buffers of these lengths.
fn call(
    rt: &impl Print,
    sheet: &[u8],
    at: usize,
    exponent: u8,
    code: u16,
    sizes: Sizes,
) -> io::Result<()>
    requires { at < 4609 }
{
    let mut exps = [12u8; 4609];
    let mut codes = [0u16; 4609];
    let mut flags = [165u8; 4609];
    let mut levels = [2.0f32; 4609];
    exps[at] = exponent;
    codes[at] = code;
    answer(
        rt,
        sheet,
        &exps[0..sizes.exps],
        &codes[0..sizes.codes],
        &mut flags[0..sizes.flags],
        &mut levels[0..sizes.levels],
    )
}

// The faults of a call, in the order of their refusals.
#[derive(Clone, Copy)]
enum Fault {
    // Another version.
    Version,
    // csnroffst 64.
    Offset,
    // The first two records have each other's channel.
    Order,
    // One exponent short.
    Length,
    // An exponent above 24.
    Exponent,
    // A code that no bap here has.
    Code,
}

// A set of them.
#[derive(Clone, Copy)]
struct Faults {
    // Every set is counted through, and printed by its number: a bit for each fault.
    number: u32,
}

impl Faults {
    fn has(self, fault: Fault) -> bool {
        let bit = match fault {
            Fault::Version => 1,
            Fault::Offset => 2,
            Fault::Order => 4,
            Fault::Length => 8,
            Fault::Exponent => 16,
            Fault::Code => 32,
        };
        self.number & bit != 0
    }
}

fn sheet_with(faults: Faults) -> [u8; 45] {
    let mut sheet = sheet_of_three();
    if faults.has(Fault::Version) {
        sheet[2] = 0;
    }
    if faults.has(Fault::Offset) {
        sheet[11] = 64;
    }
    if faults.has(Fault::Order) {
        sheet[12] = 1;
        sheet[23] = 0;
    }
    sheet
}

fn with_faults(rt: &impl Print, faults: Faults) -> io::Result<()> {
    let sheet = sheet_with(faults);
    let exponent = if faults.has(Fault::Exponent) { 25 } else { 12 };
    let code = if faults.has(Fault::Code) { u16::MAX } else { 0 };
    let sizes = Sizes {
        exps: 4608 - usize::from(faults.has(Fault::Length)),
        codes: 4608,
        flags: 4608,
        levels: 4608,
    };
    print!(rt; "faults {}", faults.number)?;
    call(rt, &sheet, 36, exponent, code, sizes)
}

// Every set of faults: the first in the order counts.
pub(crate) fn together(rt: &impl Print) -> io::Result<()> {
    for number in 0..64 {
        with_faults(rt, Faults { number })?;
    }
    Ok(())
}

// Buffers of these lengths, with no other fault, and with an exponent and a code that are none.
fn of_lengths(
    rt: &impl Print,
    exps: usize,
    codes: usize,
    flags: usize,
    levels: usize,
) -> io::Result<()>
    requires { (exps ≤ 4609) × (codes ≤ 4609) × (flags ≤ 4609) × (levels ≤ 4609) }
{
    let sheet = sheet_of_three();
    let sizes = Sizes {
        exps,
        codes,
        flags,
        levels,
    };
    show_lengths(rt, sizes)?;
    call(rt, &sheet, 36, 12, 0, sizes)?;
    show_lengths(rt, sizes)?;
    call(rt, &sheet, 36, 25, u16::MAX, sizes)
}

fn show_lengths(rt: &impl Print, sizes: Sizes) -> io::Result<()> {
    print!(rt;
        "lengths {} {} {} {}",
        sizes.exps, sizes.codes, sizes.flags, sizes.levels
    )
}

pub(crate) fn lengths(rt: &impl Print) -> io::Result<()> {
    of_lengths(rt, 4608, 4608, 4608, 4608)?;
    of_lengths(rt, 4607, 4608, 4608, 4608)?;
    of_lengths(rt, 4609, 4608, 4608, 4608)?;
    of_lengths(rt, 4608, 4607, 4608, 4608)?;
    of_lengths(rt, 4608, 4609, 4608, 4608)?;
    of_lengths(rt, 4608, 4608, 4607, 4608)?;
    of_lengths(rt, 4608, 4608, 4609, 4608)?;
    of_lengths(rt, 4608, 4608, 4608, 4607)?;
    of_lengths(rt, 4608, 4608, 4608, 4609)?;
    of_lengths(rt, 1536, 1536, 1536, 1536)?;
    of_lengths(rt, 0, 0, 0, 0)
}

fn exponent(rt: &impl Print, at: usize, value: u8) -> io::Result<()>
    requires { at < 4608 }
{
    let sheet = sheet_of_three();
    print!(rt; "exponent {at} {value}")?;
    call(rt, &sheet, at, value, 0, WHOLE)
}

// A channel's part starts at 256 * (3 * block + channel).
pub(crate) fn exponents(rt: &impl Print) -> io::Result<()> {
    alone(rt)?;
    spans(rt)?;
    repeated(rt)?;
    beyond_ends(rt)
}

// The LFE's block 3, a D15 set that no block repeats: neighbours within 2.
fn alone(rt: &impl Print) -> io::Result<()> {
    exponent(rt, 2816, 10)?;
    exponent(rt, 2816, 9)?;
    exponent(rt, 2816, 14)?;
    exponent(rt, 2816, 15)?;
    exponent(rt, 2819, 14)?;
    exponent(rt, 2819, 15)?;
    exponent(rt, 2822, 14)?;
    exponent(rt, 2822, 15)?;
    exponent(rt, 2822, 24)?;
    exponent(rt, 2822, 25)?;
    exponent(rt, 2822, 255)
}

// Block 0 of the first channel is a D25 set that no block repeats, that of the second a D45 set: constant on spans from bin 1.
fn spans(rt: &impl Print) -> io::Result<()> {
    exponent(rt, 0, 13)?;
    exponent(rt, 1, 13)?;
    exponent(rt, 2, 13)?;
    exponent(rt, 72, 13)?;
    exponent(rt, 256, 13)?;
    exponent(rt, 257, 13)?;
    exponent(rt, 260, 13)?;
    exponent(rt, 292, 13)
}

// A reuse block that is changed, and a new one that reuse blocks repeat: the LFE's blocks 1, 2, 0 and 5, and block 2 of the first channel.
fn repeated(rt: &impl Print) -> io::Result<()> {
    exponent(rt, 1280, 13)?;
    exponent(rt, 2048, 13)?;
    exponent(rt, 512, 13)?;
    exponent(rt, 4352, 13)?;
    exponent(rt, 1536, 13)
}

// Behind the last bin of each part, and the last entry.
fn beyond_ends(rt: &impl Print) -> io::Result<()> {
    exponent(rt, 73, 255)?;
    exponent(rt, 293, 255)?;
    exponent(rt, 519, 255)?;
    exponent(rt, 2823, 25)?;
    exponent(rt, 4607, 255)
}

fn code(rt: &impl Print, at: usize, value: u16) -> io::Result<()>
    requires { at < 4608 }
{
    let sheet = sheet_of_three();
    print!(rt; "code {at} {value}")?;
    call(rt, &sheet, at, 12, value, WHOLE)
}

// The first and the last bin of some parts, and the entry behind.
pub(crate) fn codes(rt: &impl Print) -> io::Result<()> {
    code(rt, 0, u16::MAX)?;
    code(rt, 72, u16::MAX)?;
    code(rt, 73, u16::MAX)?;
    code(rt, 256, u16::MAX)?;
    code(rt, 292, u16::MAX)?;
    code(rt, 293, u16::MAX)?;
    code(rt, 518, u16::MAX)?;
    code(rt, 519, u16::MAX)?;
    code(rt, 4352, u16::MAX)?;
    code(rt, 4358, u16::MAX)?;
    code(rt, 4359, u16::MAX)?;
    code(rt, 4607, u16::MAX)
}
