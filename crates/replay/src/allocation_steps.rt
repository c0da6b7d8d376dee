// The allocation of one channel, from nine codes and up to eight segments. allocation_edges has functions like these: each test program
// stands alone.
ghost use Rattle.std.specs.Prelude.{◌<◌};

use crate::cases::Case;
use crate::compare::same_refusal;
use elements::Segment;
use sheet::{ChannelCodes, Common};

// A value that is in no range stands where there is no byte, and in what an allocation does not look at.
const NONE: u8 = 255;

fn byte_at(bytes: &[u8], at: usize) -> u8 {
    bytes.get(at).copied().unwrap_or(NONE)
}

// fscod, sdcycod, fdcycod, sgaincod, dbpbcod, floorcod, csnroffst; then fsnroffst and fgaincod of the channel.
fn common_of(codes: &[u8]) -> Common {
    Common {
        fscod: byte_at(codes, 0),
        nfchans: NONE,
        lfe: NONE,
        sdcycod: byte_at(codes, 1),
        fdcycod: byte_at(codes, 2),
        sgaincod: byte_at(codes, 3),
        dbpbcod: byte_at(codes, 4),
        floorcod: byte_at(codes, 5),
        csnroffst: byte_at(codes, 6),
    }
}

// A segment has three bytes.
fn segment_at(segments: &[u8], k: usize) -> Segment
    requires { k < 8 }
{
    Segment {
        offst: byte_at(segments, 3 * k),
        len: byte_at(segments, 3 * k + 1),
        ba: byte_at(segments, 3 * k + 2),
    }
}

fn channel_of(codes: &[u8], segments: &[u8]) -> ChannelCodes {
    ChannelCodes {
        fsnroffst: byte_at(codes, 7),
        fgaincod: byte_at(codes, 8),
        nseg: (segments.len() / 3 % 256) as u8,
        segments: std::array::from_fn(|k| segment_at(segments, k)),
    }
}

pub(crate) fn compute_bap(
    case: Case,
    codes: &[u8],
    segments: &[u8],
    exp: &[u8],
    left: &[u8],
) -> bool {
    let mut bap = [165u8; 512];
    let bap = &mut bap[..(case.second as usize).min(512)];
    let answer = allocation::compute_bap(
        exp,
        case.first as usize,
        &common_of(codes),
        &channel_of(codes, segments),
        bap,
    );
    same_refusal(answer, case) && &*bap == left
}
