// What the call turns back (document 01, "When a call is turned back": 2, 10 and 4).
ghost use Rattle.std.specs.Prelude.{◌≡◌, ◌≤◌, length};
ghost use Rattle.std.specs.List.{list_all};
ghost use Rattle.allocation.specs.Allocation.{
  channel_codes,
  common_codes,
  exponents_fit,
  in_range,
  right_lengths,
  segment_in_range,
};

use elements::Segment;
use sheet::{ChannelCodes, Common, legal_end};

fn common_codes(common: &Common) -> bool
    ensures { result ≡ common_codes common.now }
{
    (common.fscod <= 2)
        & (common.sdcycod <= 3)
        & (common.fdcycod <= 3)
        & (common.sgaincod <= 3)
        & (common.dbpbcod <= 3)
        & (common.floorcod <= 7)
        & (common.csnroffst <= 63)
}

#[tactic(auto, unfolding(crate::specs::Allocation::segment_in_range))]
fn segment_in_range(segment: &Segment) -> bool
    ensures { result ≡ segment_in_range segment.now }
{
    (segment.offst <= 31) & (segment.len <= 15) & (segment.ba <= 7)
}

fn segments_in_range(segments: &[Segment]) -> bool
    ensures { result ≡ list_all segment_in_range segments.now }
{
    segments.iter().all(|segment| segment_in_range(segment))
}

fn channel_codes(channel: &ChannelCodes) -> bool
    ensures { result ≡ channel_codes channel.now }
{
    if 8 < channel.nseg {
        return false;
    }
    let segments = segments_in_range(channel.segments_in_use());
    (channel.fsnroffst <= 15) & (channel.fgaincod <= 7) & segments
}

// Every code and the end.
pub fn in_range(common: &Common, channel: &ChannelCodes, end: usize) -> bool
    ensures { result ≡ in_range common.now channel.now end }
{
    common_codes(common) & channel_codes(channel) & legal_end(end)
}

// Slices of at most 256 entries that reach to end.
pub fn right_lengths(end: usize, entries: usize, size: usize) -> bool
    ensures { result ≡ right_lengths end entries size }
{
    (entries <= 256) & (size <= 256) & (end <= entries) & (end <= size)
}

// Whether every exponent below end is at most 24. None ends the loop, so that many can be tested at once.
pub fn exponents_fit(exp: &[u8], end: usize) -> bool
    requires { end ≤ length exp.now }
    ensures { result ≡ exponents_fit exp.now end }
{
    let mut all = true;
    for &e in &exp[..end] {
        all &= e <= 24;
    }
    all
}
