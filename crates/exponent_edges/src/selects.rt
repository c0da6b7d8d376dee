// `select_exp_strategies_per_end`.
ghost use Rattle.std.specs.Prelude.{◌≤◌};

use crate::picks::top;
use crate::print::buffer;
use bits::Refusal;
use elements::ExponentSet;
use std::io;

// Smooth, rough and rougher parts of 256 in turn, so that each strategy is picked.
fn part_entry(i: usize) -> u8 {
    let part = i / 256 % 5;
    if part == 2 {
        return top(i % 256, 3, 3);
    }
    if part == 3 {
        return top(i % 256, 9, 9);
    }
    0
}

fn parts(exp: &mut [u8]) {
    for (i, entry) in exp.iter_mut().enumerate() {
        *entry = part_entry(i);
    }
}

// The codes of a channel's sets.
fn codes(rt: &impl Print, row: &[ExponentSet]) -> io::Result<()> {
    for set in row {
        print!(rt; " {}", set.code())?;
    }
    Ok(())
}

// Six channels with no code, which is how a call that is turned back is shown.
fn no_codes(rt: &impl Print, refusal: Refusal) -> io::Result<()> {
    print!(rt; " {refusal}")?;
    for _ in 0..6 {
        buffer(rt, &[0; 6])?;
    }
    Ok(())
}

fn all_codes(rt: &impl Print, table: &[[ExponentSet; 6]]) -> io::Result<()> {
    print!(rt; " 0")?;
    for row in table {
        codes(rt, row)?;
    }
    Ok(())
}

// The number of the answer, then the strategies.
fn answer(rt: &impl Print, exps: &[u8], ends: &[u16]) -> io::Result<()> {
    match shaping::select_exp_strategies_per_end(exps, ends) {
        Ok(table) => all_codes(rt, &table),
        Err(refusal) => no_codes(rt, refusal),
    }
}

// So many exponents; how many ends there are is printed too.
fn select(rt: &impl Print, size: usize, ends: &[u16]) -> io::Result<()>
    requires { size ≤ 10752 }
{
    let mut exps = [0u8; 10752];
    parts(&mut exps);
    print!(rt; "select {size} {}:", ends.len())?;
    answer(rt, &exps[0..size], ends)?;
    println!(rt; "")
}

pub(crate) fn selected(rt: &impl Print) -> io::Result<()> {
    select(rt, 1536, &[253])?;
    select(rt, 1536, &[0])?;
    select(rt, 3072, &[256, 37])?;
    select(rt, 4608, &[1, 2, 3])?;
    select(rt, 6144, &[253, 256, 37, 7])?;
    select(rt, 7680, &[253, 40, 37, 36, 256])?;
    select(rt, 9216, &[253, 37, 256, 252, 254, 7])
}

// The number of channels, the ends, and the length of the buffer.
pub(crate) fn refused(rt: &impl Print) -> io::Result<()> {
    select(rt, 0, &[])?;
    select(rt, 1536, &[257])?;
    select(rt, 1535, &[256])?;
    select(rt, 1537, &[256])?;
    select(rt, 3072, &[0, 65535])?;
    select(rt, 3072, &[256])?;
    select(rt, 10752, &[7, 7, 7, 7, 7, 7, 7])?;
    select(rt, 1535, &[257])
}
