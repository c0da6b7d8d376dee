// `preprocess_d15` and `quantise_exponents_to_grpsize`.
ghost use Rattle.std.specs.Prelude.{◌≤◌};

use crate::cases::{RULES, Rule, fill};
use crate::print::{buffer, outcome};
use std::io;

// Shapes for D15: the refusal's number, and what is then in the buffer.
fn show_d15(rt: &impl Print, exp: &mut [u8]) -> io::Result<()> {
    outcome(rt, shaping::preprocess_d15(exp))?;
    buffer(rt, exp)
}

// The same by spans.
fn show_spans(rt: &impl Print, exp: &mut [u8], grpsize: usize) -> io::Result<()> {
    outcome(rt, shaping::quantise_exponents_to_grpsize(exp, grpsize))?;
    buffer(rt, exp)
}

fn preprocessed(rt: &impl Print, exp: &mut [u8]) -> io::Result<()> {
    print!(rt; "d15")?;
    buffer(rt, exp)?;
    print!(rt; ":")?;
    show_d15(rt, exp)?;
    println!(rt; "")
}

fn quantised(rt: &impl Print, exp: &mut [u8], grpsize: usize) -> io::Result<()> {
    print!(rt; "span {grpsize}")?;
    buffer(rt, exp)?;
    print!(rt; ":")?;
    show_spans(rt, exp, grpsize)?;
    println!(rt; "")
}

fn starred_d15(rt: &impl Print) -> io::Result<()> {
    let mut sevens = [24u8; 7];
    preprocessed(rt, &mut sevens)?;
    let mut spike = [9u8, 0, 9];
    preprocessed(rt, &mut spike)?;
    let mut one = [20u8];
    preprocessed(rt, &mut one)?;
    preprocessed(rt, &mut one[0..0])
}

fn starred_spans(rt: &impl Print) -> io::Result<()> {
    let mut short = [6u8, 6, 6, 4, 2];
    quantised(rt, &mut short, 2)?;
    let mut long = [6u8, 6, 6, 4, 2, 2];
    quantised(rt, &mut long, 2)
}

// A short last span after a whole one, of each length: where the Rust raises an exponent.
fn short_spans(rt: &impl Print) -> io::Result<()> {
    let mut of_two = [1u8, 3, 3, 0];
    quantised(rt, &mut of_two, 2)?;
    let mut one = [1u8, 3, 3, 3, 3, 0];
    quantised(rt, &mut one, 4)?;
    let mut two = [1u8, 3, 3, 3, 3, 0, 0];
    quantised(rt, &mut two, 4)?;
    let mut three = [1u8, 3, 3, 3, 3, 0, 0, 0];
    quantised(rt, &mut three, 4)
}

pub(crate) fn starred(rt: &impl Print) -> io::Result<()> {
    starred_d15(rt)?;
    starred_spans(rt)?;
    short_spans(rt)
}

// Shaped for D15, then by spans; and by spans at once.
fn shaped(rt: &impl Print, exp: &mut [u8], rule: Rule, grpsize: usize) -> io::Result<()> {
    print!(rt; "shape {} {rule} {grpsize}:", exp.len())?;
    fill(exp, rule);
    show_d15(rt, exp)?;
    show_spans(rt, exp, grpsize)?;
    fill(exp, rule);
    show_spans(rt, exp, grpsize)?;
    println!(rt; "")
}

fn spans(rt: &impl Print, exp: &mut [u8], rule: Rule) -> io::Result<()> {
    shaped(rt, exp, rule, 1)?;
    shaped(rt, exp, rule, 2)?;
    shaped(rt, exp, rule, 4)?;
    shaped(rt, exp, rule, 3)
}

fn rules(rt: &impl Print, exp: &mut [u8]) -> io::Result<()> {
    for rule in RULES {
        spans(rt, exp, rule)?;
    }
    Ok(())
}

pub(crate) fn length(rt: &impl Print, n: usize) -> io::Result<()>
    requires { n ≤ 257 }
{
    let mut exp = [0u8; 257];
    rules(rt, &mut exp[0..n])
}

pub(crate) fn lengths(rt: &impl Print, sizes: &[u8]) -> io::Result<()> {
    for size in sizes {
        length(rt, usize::from(*size))?;
    }
    Ok(())
}
