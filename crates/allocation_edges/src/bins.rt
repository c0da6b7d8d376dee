// Ends and exponents at the three rates: every end that a sheet may hold, silence to full scale, one loud bin, the LFE.
ghost use Rattle.std.specs.Prelude.{◌≤◌};

use crate::allocate::allocated;
use crate::channels::{BASE, Codes};
use crate::exponents::Rule;
use std::io;

// The base codes at each rate.
fn rates(rt: &impl Print, label: &str, value: usize, rule: Rule, end: usize) -> io::Result<()>
    requires { end ≤ 257 }
{
    print!(rt; "{label} {value}")?;
    for fscod in 0..3 {
        allocated(rt, Codes { fscod, ..BASE }, rule.into(), end)?;
    }
    println!(rt; "")
}

pub(crate) fn ends(rt: &impl Print) -> io::Result<()> {
    rates(rt, "end", 7, Rule::Spread(0), 7)?;
    for k in 0..73 {
        let end = 37 + 3 * k;
        rates(rt, "end", end, Rule::Spread(0), end)?;
    }
    Ok(())
}

// A rule with each value below `count`.
fn each<F: Fn(u8) -> Rule>(
    rt: &impl Print,
    label: &str,
    with: F,
    count: u8,
    end: usize,
) -> io::Result<()>
    requires { (end ≤ 257) × F.IsAlwaysCallable with }
{
    for value in 0..count {
        rates(rt, label, usize::from(value), with(value), end)?;
    }
    Ok(())
}

pub(crate) fn exponents(rt: &impl Print) -> io::Result<()> {
    each(rt, "all bins", |value| Rule::Flat(value), 25, 253)?;
    each(rt, "loud bin", |at| Rule::Loud(usize::from(at)), 37, 253)?;
    rates(rt, "loud bin", 100, Rule::Loud(100), 253)?;
    rates(rt, "loud bin", 252, Rule::Loud(252), 253)?;
    each(rt, "LFE step", |at| Rule::Step(usize::from(at)), 8, 7)?;
    each(rt, "LFE slope", |start| Rule::Slope(start), 32, 7)
}
