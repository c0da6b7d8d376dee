// The order of the records, document 02, W1: a sheet that is out of order is refused with 11, and only where nothing makes it a 1 or a 2.
ghost use Rattle.std.specs.Prelude.{◌≡◌, ◌+◌, ◌<◌, ◌≤◌, length};

use crate::sheets::{edit, judge};
use bits::Refusal;
use std::io;

// The LFE is channel n.
fn end_of(channel: u8, n: u8) -> u8 {
    if channel == n {
        return 7;
    }
    37
}

// A full-bandwidth channel has as many segments as its number says, so that the records differ in length. The LFE has none.
fn segments_of(channel: u8, n: u8) -> u8
    ensures { result ≤ 5 }
{
    if channel == n {
        return 0;
    }
    if 5 < channel {
        return 0;
    }
    channel
}

// A record at this place of a buffer of 0, the LFE's for channel n; where the next record starts.
fn record(bytes: &mut [u8], at: usize, channel: u8, n: u8) -> usize
    requires { at + 26 ≤ length bytes.old }
    ensures lower_bound { (at ≤ result) × (result ≤ at + 26) }
    ensures bytes_len_unchanged { length bytes.new ≡ length bytes.old }
{
    let nseg = segments_of(channel, n);
    bytes[at] = channel;
    bytes[at + 1] = end_of(channel, n);
    bytes[at + 2] = 1;
    bytes[at + 10] = nseg;
    at + (11 + 3 * usize::from(nseg))
}

// The sheet whose records are those of these channels, in this order; how many bytes it has: a head of 12, and at most 26 a record.
fn sheet_of(bytes: &mut [u8], n: u8, lfe: u8, channels: &[u8]) -> usize
    requires { (168 ≤ length bytes.old) × (length channels.now ≤ 6) }
    ensures upper_bound { result ≤ 168 }
    ensures bytes_len_unchanged { length bytes.new ≡ length bytes.old }
{
    bytes[2] = 1;
    bytes[4] = n;
    bytes[5] = lfe;
    let mut at: usize = 12;
    for channel in channels {
        at = record(bytes, at, *channel, n);
    }
    bytes[1] = (at - 2) as u8;
    at
}

// That sheet with some bytes changed.
fn arranged_edited(
    rt: &impl Print,
    label: &str,
    n: u8,
    lfe: u8,
    channels: &[u8],
    edits: &[(usize, u8)],
) -> io::Result<()>
    requires { length channels.now ≤ 6 }
{
    let mut bytes = [0u8; 168];
    let size = sheet_of(&mut bytes, n, lfe, channels);
    edit(&mut bytes, edits);
    judge(rt, label, &bytes[..size])
}

// That sheet as it is.
fn arranged(rt: &impl Print, label: &str, n: u8, lfe: u8, channels: &[u8]) -> io::Result<()>
    requires { length channels.now ≤ 6 }
{
    arranged_edited(rt, label, n, lfe, channels, &[])
}

pub(crate) fn places_of_the_lfe(rt: &impl Print) -> io::Result<()> {
    arranged(rt, "LFE last", 2, 1, &[0, 1, 2])?;
    arranged(rt, "LFE between", 2, 1, &[0, 2, 1])?;
    arranged(rt, "LFE first", 2, 1, &[2, 0, 1])?;
    arranged(rt, "LFE last, channels 1 and 0", 2, 1, &[1, 0, 2])
}

// A channel twice, one that the sheet has not, or one missing is a 2, whether or not the records are in order.
pub(crate) fn not_each_once(rt: &impl Print) -> io::Result<()> {
    arranged(rt, "channels 0, 0, 1", 2, 0, &[0, 0, 1])?;
    arranged(rt, "channels 0, 1, 1", 2, 0, &[0, 1, 1])?;
    arranged(rt, "channels 0, 1, 1 of three", 3, 0, &[0, 1, 1])?;
    arranged(rt, "channels 1, 0, 1", 2, 0, &[1, 0, 1])?;
    arranged(rt, "channels 1, 1, 0 of three", 3, 0, &[1, 1, 0])?;
    arranged(rt, "channels 0, 2 of two", 2, 0, &[0, 2])?;
    arranged(rt, "channels 2, 0 of two", 2, 0, &[2, 0])?;
    arranged(rt, "channels 255, 0 of two", 2, 0, &[255, 0])?;
    arranged(rt, "channels 1, 0 of three", 3, 0, &[1, 0])?;
    arranged(rt, "channels 1, 0, no record of the LFE", 2, 1, &[1, 0])
}

// Channel 1's record from byte 12 with one segment, then channel 0's from byte 26 with none.
fn backwards(rt: &impl Print, label: &str, edits: &[(usize, u8)]) -> io::Result<()> {
    arranged_edited(rt, label, 2, 0, &[1, 0], edits)
}

// 11 comes after every other number of the sheet check.
pub(crate) fn other_faults(rt: &impl Print) -> io::Result<()> {
    backwards(rt, "out of order", &[])?;
    backwards(rt, "out of order, fscod 3", &[(3, 3)])?;
    backwards(rt, "out of order, csnroffst 64", &[(11, 64)])?;
    backwards(rt, "out of order, first record's end 38", &[(13, 38)])?;
    backwards(rt, "out of order, first record's ba 8", &[(25, 8)])?;
    backwards(
        rt,
        "out of order, last record's block 0 strategy 0",
        &[(28, 0)],
    )?;
    backwards(rt, "out of order, last record's fgaincod 8", &[(35, 8)])?;
    backwards(rt, "out of order, version 2", &[(2, 2)])?;
    backwards(rt, "out of order, length one less", &[(1, 34)])?;
    backwards(rt, "out of order, length one more", &[(1, 36)])?;
    backwards(rt, "out of order, first record cut short", &[(22, 255)])?;
    backwards(rt, "out of order, last record cut short", &[(36, 1)])?;
    arranged_edited(rt, "LFE first, its end 8", 2, 1, &[2, 0, 1], &[(13, 8)])?;
    arranged_edited(
        rt,
        "channels 1, 1, 0, version 2",
        2,
        0,
        &[1, 1, 0],
        &[(2, 2)],
    )
}

// The channels of a list are the digits of its number, the first record's first, so that the numbers from 0 on go through all lists.
// Written out: tried as `[1, 6, 36, ..].map`, where it stayed open that no divisor is 0.
fn channels_of(number: u32) -> [u8; 6] {
    [
        (number % 6) as u8,
        (number / 6 % 6) as u8,
        (number / 36 % 6) as u8,
        (number / 216 % 6) as u8,
        (number / 1296 % 6) as u8,
        (number / 7776 % 6) as u8,
    ]
}

fn answer_of(n: u8, lfe: u8, channels: &[u8]) -> Result<(), Refusal>
    requires { length channels.now ≤ 6 }
{
    let mut bytes = [0u8; 168];
    let size = sheet_of(&mut bytes, n, lfe, channels);
    sheet::check_sheet(&bytes[0..size])
}

fn counted(count: u32, answer: Result<(), Refusal>, wanted: Refusal) -> u32
    requires { count < 46656 }
    ensures { result ≤ count + 1 }
{
    count + u32::from(answer == Err(wanted))
}

fn show_channels(rt: &impl Print, channels: &[u8]) -> io::Result<()> {
    for channel in channels {
        print!(rt; " {channel}")?;
    }
    Ok(())
}

// Each list that is accepted is shown.
fn show_accepted(rt: &impl Print, answer: Result<(), Refusal>, channels: &[u8]) -> io::Result<()> {
    if answer.is_err() {
        return Ok(());
    }
    print!(rt; " accepted")?;
    show_channels(rt, channels)?;
    print!(rt; ",")
}

fn show_title(rt: &impl Print, n: u8, lfe: u8, lists: u32) -> io::Result<()> {
    print!(rt; "nfchans {n}, lfe {lfe}, lists of channels {lists}:")
}

fn show_counts(rt: &impl Print, out_of_order: u32, out_of_range: u32) -> io::Result<()> {
    println!(rt; " out of order {out_of_order}, out of range {out_of_range}")
}

// All sheets of `size` records, each of any of the six channels that there may be: in most of them a channel comes twice, which is a 2.
fn every_list(rt: &impl Print, n: u8, lfe: u8, size: usize, lists: u32) -> io::Result<()>
    requires { (size ≤ 6) × (lists ≤ 46656) }
{
    let mut out_of_order: u32 = 0;
    let mut out_of_range: u32 = 0;
    show_title(rt, n, lfe, lists)?;
    for number in 0..lists {
        let channels = channels_of(number);
        let answer = answer_of(n, lfe, &channels[0..size]);
        show_accepted(rt, answer, &channels[0..size])?;
        out_of_order = counted(out_of_order, answer, Refusal::OutOfOrder);
        out_of_range = counted(out_of_range, answer, Refusal::OutOfRange);
    }
    show_counts(rt, out_of_order, out_of_range)
}

// Every order of the records is among the lists of so many channels, of which there are 6 to the power of that number.
pub(crate) fn every_order(rt: &impl Print) -> io::Result<()> {
    every_list(rt, 1, 0, 1, 6)?;
    every_list(rt, 1, 1, 2, 36)?;
    every_list(rt, 2, 0, 2, 36)?;
    every_list(rt, 2, 1, 3, 216)?;
    every_list(rt, 3, 0, 3, 216)?;
    every_list(rt, 3, 1, 4, 1296)?;
    every_list(rt, 4, 0, 4, 1296)?;
    every_list(rt, 4, 1, 5, 7776)?;
    every_list(rt, 5, 0, 5, 7776)?;
    every_list(rt, 5, 1, 6, 46656)
}
