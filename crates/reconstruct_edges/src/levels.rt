// Every code of every bap, at five exponents.
ghost use Rattle.std.specs.Prelude.{◌<◌};

use crate::show;
use reconstruct::{Reconstructed, reconstruct_mantissa};
use std::io;

// The digest of a row of bins is a number with a digit for each bin, in base 1000003 and modulo 2^33 + 17. That is a prime above every digit, so
// a changed bin changes the digest; and no power of the base up to its 65,536th is 1 modulo it, so two that are exchanged change it too.
const BASE: u64 = 1000003;

const PRIME: u64 = 8589934609;

// The flag above the 32 bits of the level.
fn digit(flag: u8, pattern: u32) -> u64
    ensures { result < 8589934592 }
{
    let level = u64::from(pattern);
    if flag == 0 { level } else { 4294967296 + level }
}

// A code that is refused counts as a silent bin.
fn bin_of(exponent: u32, bap: u32, code: u32) -> Reconstructed {
    reconstruct_mantissa(exponent, bap, code).unwrap_or(Reconstructed::Silent)
}

fn digit_of(exponent: u32, bap: u32, code: u32) -> u64
    ensures { result < 8589934592 }
{
    let bin = bin_of(exponent, bap, code);
    digit(bin.flag(), show::pattern_of(bin.level()))
}

fn with_digit(digest: u64, digit: u64) -> u64
    requires { (digest < 8589934609) × (digit < 8589934592) }
    ensures { result < 8589934609 }
{
    (BASE * digest + digit) % PRIME
}

// How many codes a bap has: the first one that is refused. None has more than 65,536.
fn code_count(exponent: u32, bap: u32) -> u32 {
    for code in 0..65537 {
        if reconstruct_mantissa(exponent, bap, code).is_err() {
            return code;
        }
    }
    65537
}

fn digest(exponent: u32, bap: u32, count: u32) -> u64 {
    let mut all = 0;
    for code in 0..count {
        all = with_digit(all, digit_of(exponent, bap, code));
    }
    all
}

fn level(rt: &impl Print, exponent: u32, bap: u32, code: u32) -> io::Result<()> {
    let bin = bin_of(exponent, bap, code);
    print!(rt; " {}", show::pattern_of(bin.level()))
}

// How many codes there are, the digest of what they stand for, and the level of the first, the middle and the last.
fn codes(rt: &impl Print, exponent: u32, bap: u32) -> io::Result<()> {
    let count = code_count(exponent, bap);
    print!(rt;
        "codes {exponent} {bap}: {count} {}",
        digest(exponent, bap, count)
    )?;
    level(rt, exponent, bap, 0)?;
    level(rt, exponent, bap, count / 2)?;
    level(rt, exponent, bap, count.wrapping_sub(1))?;
    println!(rt; "")
}

fn each_bap(rt: &impl Print, exponent: u32) -> io::Result<()> {
    for bap in 0..16 {
        codes(rt, exponent, bap)?;
    }
    Ok(())
}

pub(crate) fn each_exponent(rt: &impl Print) -> io::Result<()> {
    each_bap(rt, 0)?;
    each_bap(rt, 1)?;
    each_bap(rt, 12)?;
    each_bap(rt, 23)?;
    each_bap(rt, 24)
}
