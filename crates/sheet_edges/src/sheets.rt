// Good sheets, changed in a local buffer; how a case is answered and shown.
ghost use Rattle.std.specs.Prelude.{◌≡◌, ◌<◌, ◌≤◌, length};

use std::io;

pub(crate) fn judge(rt: &impl Print, label: &str, sheet: &[u8]) -> io::Result<()> {
    match sheet::check_sheet(sheet) {
        Ok(()) => println!(rt; "{label}: 0"),
        Err(refusal) => println!(rt; "{label}: {refusal}"),
    }
}

// The bytes of `from` at the start of the buffer.
fn front(bytes: &mut [u8], from: &[u8])
    requires { length from.now ≤ length bytes.old }
    ensures { length bytes.new ≡ length bytes.old }
{
    bytes[..from.len()].copy_from_slice(from);
}

// Each of these places takes its value. No place past the end is ever given.
pub(crate) fn edit(bytes: &mut [u8], edits: &[(usize, u8)]) {
    for &(at, value) in edits {
        if at < bytes.len() {
            bytes[at] = value;
        }
    }
}

// The first `size` bytes of a sheet of at most 80, with some bytes changed.
fn changed(
    rt: &impl Print,
    label: &str,
    sheet: &[u8],
    edits: &[(usize, u8)],
    size: usize,
) -> io::Result<()>
    requires { (length sheet.now ≤ 80) × (size ≤ 80) }
{
    let mut bytes = [0u8; 80];
    front(&mut bytes, sheet);
    edit(&mut bytes, edits);
    judge(rt, label, &bytes[..size])
}

// Document 01's example, one channel.
fn example(bytes: &mut [u8])
    requires { 23 ≤ length bytes.old }
    ensures { length bytes.new ≡ length bytes.old }
{
    let sheet = b"\x00\x15\x01\x00\x01\x00\x00\x00\x00\x00\x00\x00\
        \x00\x25\x01\x00\x00\x00\x00\x00\x00\x00\x00";
    front(bytes, sheet);
}

// The example with some bytes changed.
pub(crate) fn one_channel(rt: &impl Print, label: &str, edits: &[(usize, u8)]) -> io::Result<()> {
    let mut bytes = [0u8; 23];
    example(&mut bytes);
    edit(&mut bytes, edits);
    judge(rt, label, &bytes)
}

// The example with its length and nseg as given, and 0 after it to `size` bytes.
pub(crate) fn extended(
    rt: &impl Print,
    label: &str,
    high: u8,
    low: u8,
    nseg: u8,
    size: usize,
) -> io::Result<()>
    requires { size ≤ 65549 }
{
    let mut bytes = [0u8; 65549];
    example(&mut bytes);
    bytes[0] = high;
    bytes[1] = low;
    bytes[22] = nseg;
    judge(rt, label, &bytes[..size])
}

// The first `size` bytes of a sheet of two channels and the LFE, with some bytes changed.
// The records are that of channel 0 with one segment, that of channel 1 with eight, the LFE's.
pub(crate) fn part(
    rt: &impl Print,
    label: &str,
    edits: &[(usize, u8)],
    size: usize,
) -> io::Result<()>
    requires { size ≤ 80 }
{
    let sheet = b"\x00\x46\x01\x01\x02\x01\x02\x01\x01\x02\x04\x0f\
        \x00\x25\x01\x00\x00\x02\x00\x03\x00\x00\x01\x1f\x0f\x07\
        \x01\xfd\x03\x00\x02\x01\x00\x00\x0f\x07\x08\
        \x00\x00\x00\x1f\x0f\x07\x01\x02\x03\x04\x05\x06\x07\x08\x07\x0a\x0b\x04\x0d\x0e\x05\x10\x01\x00\
        \x02\x07\x01\x00\x00\x01\x00\x00\x09\x04\x00";
    changed(rt, label, sheet, edits, size)
}

// That whole sheet with some bytes changed.
pub(crate) fn edited(rt: &impl Print, label: &str, edits: &[(usize, u8)]) -> io::Result<()> {
    part(rt, label, edits, 72)
}

// That sheet with a value at the place that has this name, or each of some values.
fn valued(rt: &impl Print, name: &str, at: usize, value: u8) -> io::Result<()> {
    print!(rt; "{name} {value}")?;
    edited(rt, "", &[(at, value)])
}

pub(crate) fn each(rt: &impl Print, name: &str, at: usize, values: &[u8]) -> io::Result<()> {
    for value in values {
        valued(rt, name, at, *value)?;
    }
    Ok(())
}

// Five full-bandwidth channels and the LFE, with some bytes changed.
pub(crate) fn six_channels(rt: &impl Print, label: &str, edits: &[(usize, u8)]) -> io::Result<()> {
    let sheet = b"\x00\x4c\x01\x02\x05\x01\x03\x03\x03\x03\x07\x3f\
        \x00\xfa\x03\x00\x00\x00\x00\x00\x00\x00\x00\
        \x01\x85\x01\x00\x00\x03\x00\x00\x00\x00\x00\
        \x02\x49\x03\x03\x03\x03\x03\x03\x00\x00\x00\
        \x03\x2b\x02\x02\x02\x02\x02\x02\x00\x00\x00\
        \x04\x28\x01\x01\x01\x01\x01\x01\x00\x00\x00\
        \x05\x07\x01\x01\x01\x01\x01\x01\x0f\x07\x00";
    changed(rt, label, sheet, edits, 78)
}
