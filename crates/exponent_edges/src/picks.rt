// `extract_exponent`, `ngrps_for_strategy` and `pick_strategy_for_block`.
ghost use Rattle.std.specs.Prelude.{◌≤◌};

use crate::print::answer;
use std::io;

fn extract(rt: &impl Print, number: usize, x: f32) -> io::Result<()> {
    print!(rt; "extract {number}:")?;
    answer(rt, shaping::extract_exponent(x).map(u32::from))?;
    println!(rt; "")
}

// 2^-10 - 2^-34, 2^-25, 1 and others next to a power of two; 0, infinity and what is no number.
pub(crate) fn extracted(rt: &impl Print) -> io::Result<()> {
    extract(rt, 0, 16777215.0 / 17179869184.0)?;
    extract(rt, 1, 1.0 / 33554432.0)?;
    extract(rt, 2, 1.0)?;
    extract(rt, 3, 0.5)?;
    extract(rt, 4, 0.25)?;
    extract(rt, 5, 16777215.0 / 33554432.0)?;
    extract(rt, 6, -16777215.0 / 33554432.0)?;
    extract(rt, 7, 1.0 / 16777216.0)?;
    extract(rt, 8, 0.0)?;
    extract(rt, 9, 1000000.0)?;
    extract(rt, 10, 1.0 / 0.0)?;
    extract(rt, 11, -1.0 / 0.0)?;
    extract(rt, 12, 0.0 / 0.0)?;
    extract(rt, 13, -0.0)?;
    extract(rt, 14, 16777215.0 / 281474976710656.0)?;
    extract(rt, 15, -16777215.0 / 562949953421312.0)
}

fn group_count(rt: &impl Print, end: usize, grpsize: usize) -> io::Result<()> {
    print!(rt; "groups {end} {grpsize}:")?;
    answer(rt, shaping::ngrps_for_strategy(end, grpsize))?;
    println!(rt; "")
}

fn groups_at(rt: &impl Print, end: usize) -> io::Result<()> {
    group_count(rt, end, 1)?;
    group_count(rt, end, 2)?;
    group_count(rt, end, 4)?;
    group_count(rt, end, 3)?;
    group_count(rt, end, 0)
}

pub(crate) fn groups(rt: &impl Print) -> io::Result<()> {
    groups_at(rt, 253)?;
    groups_at(rt, 40)?;
    groups_at(rt, 37)?;
    groups_at(rt, 7)?;
    groups_at(rt, 0)?;
    groups_at(rt, 1)?;
    groups_at(rt, 2)?;
    groups_at(rt, 256)?;
    groups_at(rt, 257)
}

// Every fourth bin from bin 2 on lies `high` above its span, but bin 250 lies `last` above it.
pub(crate) fn top(i: usize, high: u8, last: u8) -> u8 {
    if i % 4 != 2 {
        return 0;
    }
    if i == 250 { last } else { high }
}

fn tops(exp: &mut [u8], high: u8, last: u8) {
    for (i, entry) in exp.iter_mut().enumerate() {
        *entry = top(i, high, last);
    }
}

fn picked(rt: &impl Print, high: u8, last: u8, size: usize, end: usize) -> io::Result<()>
    requires { size ≤ 257 }
{
    let mut exp = [0u8; 257];
    tops(&mut exp, high, last);
    print!(rt; "pick {high} {last} {size} {end}:")?;
    let given = shaping::pick_strategy_for_block(&exp[0..size], end);
    answer(rt, given.map(|strategy| u32::from(strategy.code())))?;
    println!(rt; "")
}

// Of 252 bins, 62 and bin 250 lie above their span: 62 times 2 and 4 are a cost of 128, with 5 it is 129. 62 times 3 and 4 are 190, which is
// the most for D25.
pub(crate) fn costs(rt: &impl Print) -> io::Result<()> {
    picked(rt, 2, 4, 252, 252)?;
    picked(rt, 2, 5, 252, 252)?;
    picked(rt, 3, 4, 252, 252)?;
    picked(rt, 3, 5, 252, 252)?;
    picked(rt, 2, 4, 256, 0)?;
    picked(rt, 2, 4, 256, 1)?;
    picked(rt, 9, 4, 256, 3)?;
    picked(rt, 9, 4, 256, 256)?;
    picked(rt, 2, 4, 256, 257)?;
    picked(rt, 2, 4, 257, 256)?;
    picked(rt, 2, 4, 257, 257)?;
    picked(rt, 2, 4, 252, 253)?;
    picked(rt, 255, 255, 256, 256)
}
