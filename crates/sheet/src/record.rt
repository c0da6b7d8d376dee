// A channel's record by value.
ghost use Rattle.std.specs.Prelude.{◌≡◌, ◌<◌};
ghost use Rattle.sheet.specs.Record.{
  block_set,
  blocks_of,
  channel_record,
  eight_segments,
  record_bytes,
  record_codes,
  record_of,
  segment_at,
  segments_of,
  set_of,
  strategy_of,
};

use crate::read::byte_at;
use crate::records::Records;
use elements::{BlockSet, ExponentSet, Segment, Strategy};

// What the allocation takes of a channel's record.
#[derive(Clone, Copy)]
pub struct ChannelCodes {
    pub fsnroffst: u8,
    pub fgaincod: u8,
    pub nseg: u8,
    /// Room for eight, as there is no heap; those that are not there are all 0.
    pub segments: [Segment; 8],
}

impl ChannelCodes {
    /// The first `nseg`.
    pub fn segments_in_use(&self) -> &[Segment]
        ensures { result.now ≡ segments_of self.now }
    {
        &self.segments[..usize::from(self.nseg).min(8)]
    }
}

#[derive(Clone, Copy)]
pub struct ChannelRecord {
    pub channel: u8,
    pub end: u8,
    pub blocks: [BlockSet; 6],
    pub codes: ChannelCodes,
}

// 0 reuse, 1 D15, 2 D25, 3 D45.
fn set_of(strategy: u8) -> ExponentSet
    ensures { result ≡ set_of strategy }
{
    match strategy {
        0 => ExponentSet::Reuse,
        1 => ExponentSet::New(Strategy::D15),
        2 => ExponentSet::New(Strategy::D25),
        _ => ExponentSet::New(Strategy::D45),
    }
}

fn block_at(bytes: &[u8], block: usize) -> BlockSet
    requires { block < 6 }
    ensures { result ≡ block_set (strategy_of bytes.now block) }
{
    BlockSet {
        set: set_of(byte_at(bytes, 2 + block)),
    }
}

// Entry by entry: by `from_fn`, as in `eight_segments`, the equation of a block's set was not found in what its closure gives.
fn blocks_of(bytes: &[u8]) -> [BlockSet; 6]
    ensures { result ≡ blocks_of bytes.now }
{
    [
        block_at(bytes, 0),
        block_at(bytes, 1),
        block_at(bytes, 2),
        block_at(bytes, 3),
        block_at(bytes, 4),
        block_at(bytes, 5),
    ]
}

// Offst, len and ba of segment i stand three bytes behind those of the one before.
fn segment_at(bytes: &[u8], i: usize) -> Segment
    requires { i < 8 }
    ensures { result ≡ segment_at bytes.now i }
{
    Segment {
        offst: byte_at(bytes, 11 + 3 * i),
        len: byte_at(bytes, 12 + 3 * i),
        ba: byte_at(bytes, 13 + 3 * i),
    }
}

fn eight_segments(bytes: &[u8]) -> [Segment; 8]
    ensures { result ≡ eight_segments bytes.now }
{
    std::array::from_fn(
        |i|
            requires { i < 8 }
            ensures { result ≡ segment_at bytes.entry.now i }
        { segment_at(bytes, i) },
    )
}

fn record_codes(bytes: &[u8]) -> ChannelCodes
    ensures { result ≡ record_codes bytes.now }
{
    let segments = eight_segments(bytes);
    ChannelCodes {
        fsnroffst: byte_at(bytes, 8),
        fgaincod: byte_at(bytes, 9),
        nseg: byte_at(bytes, 10),
        segments,
    }
}

fn channel_record(bytes: &[u8]) -> ChannelRecord
    ensures { result ≡ channel_record bytes.now }
{
    let blocks = blocks_of(bytes);
    let codes = record_codes(bytes);
    ChannelRecord {
        channel: byte_at(bytes, 0),
        end: byte_at(bytes, 1),
        blocks,
        codes,
    }
}

// The record of a channel, as its bytes: as many stand before it as its number says. None where there is none.
fn record_bytes(sheet: &[u8], channel: usize) -> &[u8]
    ensures { result.now ≡ record_bytes sheet.now channel }
{
    Records::of(sheet).nth(channel).unwrap_or(&[])
}

// The record of a channel of an accepted sheet; all 0 where there is none.
pub fn record_of(sheet: &[u8], channel: usize) -> ChannelRecord
    ensures { result ≡ record_of sheet.now channel }
{
    channel_record(record_bytes(sheet, channel))
}
