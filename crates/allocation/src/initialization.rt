// The parameters of a channel's allocation (A/52 7.2.2.1).
ghost use Rattle.std.specs.Prelude.{◌≡◌, ◌≤◌};
ghost use Rattle.allocation.specs.Legal.{LegalCodes};
ghost use Rattle.allocation.specs.Held.{held_floor, held_offset, parameters_of};

use excitation::LeakParameters;
use sheet::{ChannelCodes, Common};

// The floor is 2048 up, the offset 960 up: neither is negative then.
#[derive(Clone, Copy, Debug, PartialEq, Eq)]
pub struct Parameters {
    pub leak: LeakParameters,
    pub dbknee: u32,
    pub floor: u32,
    pub snroffset: u32,
}

// The floor of a pattern of 16 bits, 2048 up.
#[tactic(auto, unfolding(crate::specs::Held::held_floor))]
fn held_floor(pattern: u16) -> u32
    ensures { (result ≡ held_floor pattern) × (result ≤ 65535) }
{
    (u32::from(pattern) + 2048) % 65536
}

#[tactic(auto, unfolding(crate::specs::Held::held_offset))]
fn held_offset(csnroffst: u8, fsnroffst: u8) -> u32
    ensures { (result ≡ held_offset csnroffst fsnroffst) × (result ≤ 17340) }
{
    64 * u32::from(csnroffst) + 4 * u32::from(fsnroffst)
}

pub fn initialize(common: &Common, channel: &ChannelCodes) -> Parameters
    requires { LegalCodes common.now channel.now }
    ensures { result ≡ parameters_of common.now channel.now }
{
    Parameters {
        leak: LeakParameters {
            sdecay: u32::from(tables::slowdec()[usize::from(common.sdcycod)]),
            fdecay: u32::from(tables::fastdec()[usize::from(common.fdcycod)]),
            sgain: u32::from(tables::slowgain()[usize::from(common.sgaincod)]),
            fgain: u32::from(tables::fastgain()[usize::from(channel.fgaincod)]),
        },
        dbknee: u32::from(tables::dbpbtab()[usize::from(common.dbpbcod)]),
        floor: held_floor(tables::floortab()[usize::from(common.floorcod)]),
        snroffset: held_offset(common.csnroffst, channel.fsnroffst),
    }
}
