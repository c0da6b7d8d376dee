// What a line is made of: numbers behind blanks, and the entries of a buffer.
use bits::Refusal;
use std::io;

// Each entry enters the digest as the next digit, to the base 257, modulo a prime.
fn next_digest(sum: u32, entry: u8) -> u32 {
    (sum % 65521 * 257 + u32::from(entry) + 1) % 65521
}

fn digest(entries: &[u8]) -> u32 {
    entries
        .iter()
        .fold(0, |sum, &entry| next_digest(sum, entry))
}

fn each(rt: &impl Print, entries: &[u8]) -> io::Result<()> {
    for entry in entries {
        print!(rt; " {entry}")?;
    }
    Ok(())
}

// Up to 8 entries as they are, more of them as a digest.
pub(crate) fn buffer(rt: &impl Print, entries: &[u8]) -> io::Result<()> {
    if entries.len() <= 8 {
        return each(rt, entries);
    }
    print!(rt; " {}", digest(entries))
}

// The number of the answer, 0 where the call did its work.
pub(crate) fn outcome(rt: &impl Print, given: Result<(), Refusal>) -> io::Result<()> {
    match given {
        Ok(()) => print!(rt; " 0"),
        Err(refusal) => print!(rt; " {refusal}"),
    }
}

// The same and the value, 0 where there is none.
pub(crate) fn answer(rt: &impl Print, given: Result<u32, Refusal>) -> io::Result<()> {
    match given {
        Ok(value) => print!(rt; " 0 {value}"),
        Err(refusal) => print!(rt; " {refusal} 0"),
    }
}
