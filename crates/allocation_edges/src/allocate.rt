// A case: the allocation, its answer, and the bap buffer afterwards.
ghost use Rattle.std.specs.Prelude.{◌≤◌};

use crate::channels::{Codes, Segments, channel_of, none};
use crate::exponents::{Exponents, fill};
use crate::show;
use sheet::{ChannelCodes, Common};
use std::io;

fn call(
    rt: &impl Print,
    exp: &[u8],
    end: usize,
    common: &Common,
    channel: &ChannelCodes,
    bap: &mut [u8],
) -> io::Result<()> {
    let number = match allocation::compute_bap(exp, end, common, channel, bap) {
        Ok(()) => 0,
        Err(refusal) => refusal.number(),
    };
    print!(rt; ": {number}")?;
    show::buffer(rt, bap)
}

// With m exponents and k baps, each of which was 165.
pub(crate) fn sized(
    rt: &impl Print,
    codes: Codes,
    segments: Segments,
    exponents: Exponents,
    end: usize,
    m: usize,
    k: usize,
) -> io::Result<()>
    requires { (m ≤ 257) × (k ≤ 257) }
{
    let mut exp = [0u8; 257];
    let mut bap = [165u8; 257];
    fill(&mut exp, exponents);
    call(
        rt,
        &exp[..m],
        end,
        &Common::from(codes),
        &channel_of(codes, segments),
        &mut bap[..k],
    )
}

// With slices that end there.
pub(crate) fn segmented(
    rt: &impl Print,
    codes: Codes,
    segments: Segments,
    exponents: Exponents,
    end: usize,
) -> io::Result<()>
    requires { end ≤ 257 }
{
    sized(rt, codes, segments, exponents, end, end, end)
}

pub(crate) fn allocated(
    rt: &impl Print,
    codes: Codes,
    exponents: Exponents,
    end: usize,
) -> io::Result<()>
    requires { end ≤ 257 }
{
    segmented(rt, codes, none(), exponents, end)
}
