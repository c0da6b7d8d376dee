// How a case is shown: its numbers one behind the other.
use bits::Refusal;
use std::fmt::Display;
use std::io;

// The refusal's number and the value, of which the one that is not there is 0.
pub(crate) fn answer(rt: &impl Print, answer: Result<u32, Refusal>) -> io::Result<()> {
    match answer {
        Ok(value) => print!(rt; " 0 {value}"),
        Err(refusal) => print!(rt; " {refusal} 0"),
    }
}

pub(crate) fn each<T: Display>(rt: &impl Print, entries: &[T]) -> io::Result<()> {
    for entry in entries {
        print!(rt; " {entry}")?;
    }
    Ok(())
}

// The sum of the entries, and the sum of the sums up to each entry, modulo 2^32.
pub(crate) fn sums<T: Copy + Into<u32>>(rt: &impl Print, entries: &[T]) -> io::Result<()> {
    let mut all = 0u32;
    let mut running = 0u32;
    for &entry in entries {
        all = all.wrapping_add(entry.into());
        running = running.wrapping_add(all);
    }
    print!(rt; " {all} {running}")
}
