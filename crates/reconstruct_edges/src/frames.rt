// Frames that are encoded, read back and reconstructed.
ghost use Rattle.std.specs.Prelude.{◌≡◌, ◌<◌, ◌≤◌, length};

use crate::borders::{borders_of, show_borders};
use crate::looking::{is_below, met_in, show_met};
use crate::show;
use std::io;

// By its bits: both signs, and sizes from 1/2 on that fall by half about every third bin.
fn coefficient(i: usize) -> f32
    requires { i < 4608 }
{
    let size = 1056964608 - 2796203 * (i % 256) + 1021 * i;
    shaping::coefficient_of((size + 2147483648 * (i % 2)) as u32)
}

fn coefficients() -> [f32; 4608]
    ensures { 4608 ≡ length result }
{
    let mut coeffs = [0.0f32; 4608];
    for i in 0..4608 {
        coeffs[i] = coefficient(i);
    }
    coeffs
}

// The body of n coefficients, and the encoder's answer.
fn encode(rt: &impl Print, sheet: &[u8], n: usize, body: &mut [u8]) -> io::Result<()>
    requires { n ≤ 4608 }
{
    let coeffs = coefficients();
    let mut exps = [0u8; 4608];
    let mut bap = [0u8; 4608];
    let mut codes = [0u16; 4608];
    let answer = frame_encoder::encode_body(
        sheet,
        &coeffs[0..n],
        &mut exps[0..n],
        &mut bap[0..n],
        &mut codes[0..n],
        body,
    );
    print!(rt; " {}", show::number_of(&answer))
}

// What is read of a body, and the reader's answer.
fn read(
    rt: &impl Print,
    sheet: &[u8],
    body: &[u8],
    exps: &mut [u8],
    bap: &mut [u8],
    codes: &mut [u16],
) -> io::Result<()>
    ensures exps_len_unchanged { length exps.new ≡ length exps.old }
    ensures bap_len_unchanged { length bap.new ≡ length bap.old }
    ensures codes_len_unchanged { length codes.new ≡ length codes.old }
{
    let answer = frame_reader::read_body(sheet, body, exps, bap, codes);
    print!(rt; " {}", show::number_of(&answer))
}

// What stands from each end on is no exponent and no code, and is ignored.
fn spoil(ends: [usize; 3], exps: &mut [u8], codes: &mut [u16])
    requires { length codes.old ≡ length exps.old }
    ensures exps_len_unchanged { length exps.new ≡ length exps.old }
    ensures codes_len_unchanged { length codes.new ≡ length codes.old }
{
    for i in 0..exps.len() {
        if !is_below(ends, i) {
            exps[i] = 255;
            codes[i] = u16::MAX;
        }
    }
}

// The copy, and its answer.
fn reconstruct_read(
    rt: &impl Print,
    sheet: &[u8],
    exps: &[u8],
    codes: &[u16],
    flags: &mut [u8],
    levels: &mut [f32],
) -> io::Result<()>
    ensures flags_len_unchanged { length flags.new ≡ length flags.old }
    ensures levels_len_unchanged { length levels.new ≡ length levels.old }
{
    let answer = reconstruct::reconstruct_body(sheet, exps, codes, flags, levels);
    print!(rt; " {}", show::number_of(&answer))
}

// What was met in a copy.
fn look(
    rt: &impl Print,
    sheet: &[u8],
    ends: [usize; 3],
    exps: &[u8],
    bap: &[u8],
    codes: &mut [u16],
    flags: &[u8],
    levels: &[f32],
) -> io::Result<()>
    requires in_bounds { (37 ≤ length exps.now) × (length exps.now ≤ 4608) }
    requires bap_len { (length bap.now ≡ length exps.now) × (length codes.old ≡ length exps.now) }
    requires flags_len { (length flags.now ≡ length exps.now) × (length levels.now ≡ length exps.now) }
    ensures { length codes.new ≡ length codes.old }
{
    show_met(rt, met_in(ends, exps, bap, codes, flags, levels))?;
    show_borders(rt, borders_of(sheet, exps, bap, codes))
}

// The copy of what was read.
fn copy(
    rt: &impl Print,
    sheet: &[u8],
    ends: [usize; 3],
    exps: &mut [u8],
    bap: &[u8],
    codes: &mut [u16],
    flags: &mut [u8],
    levels: &mut [f32],
) -> io::Result<()>
    requires in_bounds { (37 ≤ length exps.old) × (length exps.old ≤ 4608) }
    requires bap_len { (length bap.now ≡ length exps.old) × (length codes.old ≡ length exps.old) }
    requires flags_len { (length flags.old ≡ length exps.old) × (length levels.old ≡ length exps.old) }
    ensures exps_len_unchanged { length exps.new ≡ length exps.old }
    ensures codes_len_unchanged { length codes.new ≡ length codes.old }
{
    spoil(ends, exps, codes);
    reconstruct_read(rt, sheet, exps, codes, flags, levels)?;
    look(rt, sheet, ends, exps, bap, codes, flags, levels)
}

// Buffers of one length for all that comes of a body.
fn read_and_copy(
    rt: &impl Print,
    sheet: &[u8],
    ends: [usize; 3],
    body: &[u8],
    exps: &mut [u8],
    bap: &mut [u8],
    codes: &mut [u16],
    flags: &mut [u8],
    levels: &mut [f32],
) -> io::Result<()>
    requires in_bounds { (37 ≤ length exps.old) × (length exps.old ≤ 4608) }
    requires bap_len { (length bap.old ≡ length exps.old) × (length codes.old ≡ length exps.old) }
    requires flags_len { (length flags.old ≡ length exps.old) × (length levels.old ≡ length exps.old) }
{
    read(rt, sheet, body, exps, bap, codes)?;
    copy(rt, sheet, ends, exps, bap, codes, flags, levels)
}

// The same with buffers of n entries.
fn decode(rt: &impl Print, sheet: &[u8], ends: [usize; 3], n: usize, body: &[u8]) -> io::Result<()>
    requires { (37 ≤ n) × (n ≤ 4608) }
{
    let mut exps = [0u8; 4608];
    let mut bap = [0u8; 4608];
    let mut codes = [0u16; 4608];
    let mut flags = [165u8; 4608];
    let mut levels = [2.0f32; 4608];
    read_and_copy(
        rt,
        sheet,
        ends,
        body,
        &mut exps[0..n],
        &mut bap[0..n],
        &mut codes[0..n],
        &mut flags[0..n],
        &mut levels[0..n],
    )
}

// The answers of the encoder, of the reader and of the copy; then what was met in the copy.
fn frame(rt: &impl Print, sheet: &[u8], ends: [usize; 3], n: usize) -> io::Result<()>
    requires { (37 ≤ n) × (n ≤ 4608) }
{
    let mut body = [0u8; 4096];
    print!(rt; "frame {n}:")?;
    encode(rt, sheet, n, &mut body)?;
    decode(rt, sheet, ends, n, &body)?;
    println!(rt; "")
}

// One channel of end 37.
pub(crate) fn one_channel(rt: &impl Print) -> io::Result<()> {
    let sheet = b"\x00\x15\x01\x00\x01\x00\x02\x01\x01\x02\x04\x08\
        \x00\x25\x01\x00\x00\x00\x00\x00\x00\x04\x00";
    frame(rt, sheet, [37, 37, 37], 1536)
}

// Two channels of ends 73 and 37 and the LFE, with every strategy.
pub(crate) fn three_channels(rt: &impl Print) -> io::Result<()> {
    let sheet = sheet_of_three();
    frame(rt, &sheet, [73, 37, 7], 4608)
}

// Its strategies are D25, D25, reuse, D45, D15, reuse; D45, D45, reuse, reuse, D25, reuse; D15, reuse, reuse, D15, D15, reuse.
pub(crate) fn sheet_of_three() -> [u8; 45] {
    *b"\x00\x2b\x01\x01\x02\x01\x02\x01\x01\x02\x04\x10\
        \x00\x49\x02\x02\x00\x03\x01\x00\x05\x04\x00\
        \x01\x25\x03\x03\x00\x00\x02\x00\x03\x02\x00\
        \x02\x07\x01\x00\x00\x01\x01\x00\x07\x06\x00"
}
