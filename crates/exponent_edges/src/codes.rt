// `write_exponents_grouped` and `read_exponents_grouped`: the output, or what is read, starts as bytes of 170, and is shown as a whole.
ghost use Rattle.std.specs.Prelude.{◌≤◌, length};

use crate::cases::{RULES, Rule, fill};
use crate::print::{answer, buffer};
use std::io;

fn shape(exp: &mut [u8], rule: Rule, grpsize: usize) {
    fill(exp, rule);
    // A call that is turned back leaves the buffer, which then shows it.
    let _ = shaping::preprocess_d15(exp);
    let _ = shaping::quantise_exponents_to_grpsize(exp, grpsize);
}

fn shape_below(exp: &mut [u8], end: usize, rule: Rule, grpsize: usize)
    requires { end ≤ length exp.old }
{
    shape(&mut exp[0..end], rule, grpsize);
}

// Writes to the first `room` bytes of the output.
fn write(
    rt: &impl Print,
    out: &mut [u8],
    room: usize,
    exp: &[u8],
    end: usize,
    grpsize: usize,
) -> io::Result<()>
    requires { room ≤ length out.old }
{
    answer(
        rt,
        exponents::write_exponents_grouped(&mut out[0..room], exp, end, grpsize),
    )?;
    buffer(rt, out)
}

// Reads `given` bytes of the input.
fn read(rt: &impl Print, input: &[u8], end: usize, grpsize: usize, given: usize) -> io::Result<()>
    requires { given ≤ length input.now }
{
    let mut exp = [170u8; 256];
    answer(
        rt,
        exponents::read_exponents_grouped(&input[0..given], end, grpsize, &mut exp),
    )?;
    buffer(rt, &exp)?;
    println!(rt; "")
}

// Writes exponents shaped by a rule to `room` bytes, and reads `given` bytes of them.
fn coded(
    rt: &impl Print,
    rule: Rule,
    end: usize,
    grpsize: usize,
    room: usize,
    given: usize,
) -> io::Result<()>
    requires { (end ≤ 256) × (room ≤ 80) × (given ≤ 80) }
{
    let mut exp = [0u8; 256];
    let mut out = [170u8; 80];
    print!(rt; "code {rule} {end} {grpsize} {room} {given}:")?;
    shape_below(&mut exp, end, rule, grpsize);
    write(rt, &mut out, room, &exp, end, grpsize)?;
    read(rt, &out, end, grpsize, given)
}

// With as many bytes as the bits need, and one less or more.
fn sized(rt: &impl Print, rule: Rule, end: usize, grpsize: usize, size: usize) -> io::Result<()>
    requires { (end ≤ 256) × (1 ≤ size) × (size ≤ 79) }
{
    coded(rt, rule, end, grpsize, size, size)?;
    coded(rt, rule, end, grpsize, size - 1, size)?;
    coded(rt, rule, end, grpsize, size, size - 1)?;
    coded(rt, rule, end, grpsize, size + 1, size + 1)
}

fn ruled(rt: &impl Print, rule: Rule) -> io::Result<()> {
    sized(rt, rule, 7, 1, 3)?;
    sized(rt, rule, 7, 2, 2)?;
    sized(rt, rule, 7, 4, 2)?;
    sized(rt, rule, 37, 1, 11)?;
    sized(rt, rule, 37, 2, 6)?;
    sized(rt, rule, 37, 4, 4)?;
    sized(rt, rule, 40, 1, 12)?;
    sized(rt, rule, 40, 2, 7)?;
    sized(rt, rule, 40, 4, 4)?;
    sized(rt, rule, 253, 1, 74)?;
    sized(rt, rule, 253, 2, 38)?;
    sized(rt, rule, 253, 4, 19)
}

pub(crate) fn rules(rt: &impl Print) -> io::Result<()> {
    for rule in RULES {
        ruled(rt, rule)?;
    }
    Ok(())
}

// Ends and spans that are refused.
pub(crate) fn refused(rt: &impl Print) -> io::Result<()> {
    coded(rt, Rule::Falling, 0, 1, 80, 80)?;
    coded(rt, Rule::Falling, 6, 1, 80, 80)?;
    coded(rt, Rule::Falling, 8, 1, 80, 80)?;
    coded(rt, Rule::Falling, 36, 1, 80, 80)?;
    coded(rt, Rule::Falling, 38, 1, 80, 80)?;
    coded(rt, Rule::Falling, 39, 2, 80, 80)?;
    coded(rt, Rule::Falling, 252, 4, 80, 80)?;
    coded(rt, Rule::Falling, 254, 4, 80, 80)?;
    coded(rt, Rule::Falling, 256, 1, 80, 80)?;
    coded(rt, Rule::Falling, 37, 3, 80, 80)?;
    coded(rt, Rule::Falling, 37, 0, 80, 80)
}

// Exponents as they are, to `room` bytes.
fn written(rt: &impl Print, exp: &[u8], end: usize, grpsize: usize, room: usize) -> io::Result<()>
    requires { room ≤ 4 }
{
    let mut out = [170u8; 4];
    print!(rt; "write")?;
    buffer(rt, exp)?;
    print!(rt; ": {end} {grpsize} {room}:")?;
    write(rt, &mut out, room, exp, end, grpsize)?;
    println!(rt; "")
}

// Shaped, and next to it; a slice that does not reach to end; two faults.
pub(crate) fn not_shaped(rt: &impl Print) -> io::Result<()> {
    written(rt, &[15, 17, 19, 21, 23, 24, 24], 7, 1, 3)?;
    written(rt, &[16, 17, 19, 21, 23, 24, 24], 7, 1, 3)?;
    written(rt, &[15, 18, 19, 21, 23, 24, 24], 7, 1, 3)?;
    written(rt, &[15, 17, 19, 21, 23, 25, 24], 7, 1, 3)?;
    written(rt, &[15, 17, 19, 21, 23, 24, 21], 7, 1, 3)?;
    written(rt, &[15, 17, 19, 21, 23, 24, 24, 255], 7, 1, 3)?;
    written(rt, &[2, 0, 0, 2, 2, 4, 4], 7, 2, 2)?;
    written(rt, &[2, 0, 0, 2, 2, 4, 3], 7, 2, 2)?;
    written(rt, &[2, 0, 0, 0, 0, 2, 2], 7, 4, 2)?;
    written(rt, &[2, 0, 0, 0, 1, 2, 2], 7, 4, 2)?;
    written(rt, &[2, 0, 0, 2, 2, 4], 7, 2, 2)?;
    written(rt, &[16, 0, 0, 2, 2, 4], 7, 2, 1)?;
    written(rt, &[16, 0, 0, 2, 2, 4, 4], 7, 2, 1)?;
    written(rt, &[16, 0, 0, 2, 2, 4, 4], 38, 2, 1)?;
    written(rt, &[2, 0, 0, 2, 2, 4, 4], 257, 2, 2)
}

// Reads the input to the first `room` entries of a buffer.
fn read_to(
    rt: &impl Print,
    exp: &mut [u8],
    room: usize,
    input: &[u8],
    end: usize,
    grpsize: usize,
) -> io::Result<()>
    requires { room ≤ length exp.old }
{
    answer(
        rt,
        exponents::read_exponents_grouped(input, end, grpsize, &mut exp[0..room]),
    )?;
    buffer(rt, exp)
}

fn given(rt: &impl Print, input: &[u8], end: usize, grpsize: usize, room: usize) -> io::Result<()>
    requires { room ≤ 8 }
{
    let mut exp = [170u8; 8];
    print!(rt; "read")?;
    buffer(rt, input)?;
    print!(rt; ": {end} {grpsize} {room}:")?;
    read_to(rt, &mut exp, room, input, end, grpsize)?;
    println!(rt; "")
}

// Groups of 124, 125 and 127; exponents from 0 down and from 24 up; what follows the bits is not looked at.
pub(crate) fn groups_read(rt: &impl Print) -> io::Result<()> {
    given(rt, &[15, 143, 128], 7, 1, 8)?;
    given(rt, &[15, 143, 191, 255], 7, 1, 7)?;
    given(rt, &[15, 160, 0], 7, 1, 8)?;
    given(rt, &[15, 224, 0], 7, 1, 8)?;
    given(rt, &[7, 223, 64], 7, 1, 8)?;
    given(rt, &[0, 0, 0], 7, 1, 8)?;
    given(rt, &[255, 159, 0], 7, 1, 8)?;
    given(rt, &[15, 160], 7, 1, 8)?;
    given(rt, &[7, 223], 7, 1, 8)?;
    given(rt, &[7], 7, 1, 8)?;
    given(rt, b"", 7, 1, 8)
}

// A pad is ignored, whatever it leads to; a difference is not. Ends, spans and lengths that are refused.
pub(crate) fn pads_read(rt: &impl Print) -> io::Result<()> {
    given(rt, &[33, 64], 7, 4, 8)?;
    given(rt, &[32, 64], 7, 4, 8)?;
    given(rt, &[33, 64], 7, 2, 8)?;
    given(rt, &[15, 143, 128], 7, 1, 6)?;
    given(rt, &[15, 143, 128], 7, 1, 0)?;
    given(rt, &[15, 143, 128], 7, 3, 8)?;
    given(rt, &[15, 143, 128], 38, 1, 6)?;
    given(rt, &[15, 143, 128], 37, 1, 8)?;
    given(rt, &[15, 143, 128], 0, 1, 8)
}

// A slice holds at most 256 entries.
pub(crate) fn long_slices(rt: &impl Print) -> io::Result<()> {
    let mut exp = [0u8; 257];
    written(rt, &exp[0..256], 7, 1, 3)?;
    written(rt, &exp, 7, 1, 3)?;
    print!(rt; "read to 256, 257:")?;
    read_to(rt, &mut exp, 256, b"\x0f\x8f\x80", 7, 1)?;
    read_to(rt, &mut exp, 257, b"\x0f\x8f\x80", 7, 1)?;
    println!(rt; "")
}
