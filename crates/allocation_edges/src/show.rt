// How a buffer is shown.
use std::io;

// Each entry enters the sum as the next digit, to the base 257, modulo a prime.
fn next_sum(sum: u64, entry: u8) -> u64 {
    (sum % 4294967291 * 257 + u64::from(entry) + 1) % 4294967291
}

fn sum(entries: &[u8]) -> u64 {
    entries.iter().fold(0, |sum, &entry| next_sum(sum, entry))
}

// The sum of the entries, and the entries themselves where they are at most 40.
pub(crate) fn buffer(rt: &impl Print, entries: &[u8]) -> io::Result<()> {
    print!(rt; " {}", sum(entries))?;
    if 40 < entries.len() {
        return Ok(());
    }
    print!(rt; ",")?;
    for entry in entries {
        print!(rt; " {entry}")?;
    }
    Ok(())
}
