// The values of a sheet that hold for all channels.
ghost use Rattle.std.specs.Prelude.{◌≡◌};
ghost use Rattle.sheet.specs.Common.{common_of, channels_of, common_in_range};

use crate::read::byte_at;

#[derive(Clone, Copy)]
pub struct Common {
    pub fscod: u8,
    // The number of full-bandwidth channels.
    pub nfchans: u8,
    pub lfe: u8,
    pub sdcycod: u8,
    pub fdcycod: u8,
    pub sgaincod: u8,
    pub dbpbcod: u8,
    pub floorcod: u8,
    pub csnroffst: u8,
}

pub fn common_of(sheet: &[u8]) -> Common
    ensures { result ≡ common_of sheet.now }
{
    Common {
        fscod: byte_at(sheet, 3),
        nfchans: byte_at(sheet, 4),
        lfe: byte_at(sheet, 5),
        sdcycod: byte_at(sheet, 6),
        fdcycod: byte_at(sheet, 7),
        sgaincod: byte_at(sheet, 8),
        dbpbcod: byte_at(sheet, 9),
        floorcod: byte_at(sheet, 10),
        csnroffst: byte_at(sheet, 11),
    }
}

pub fn channels_of(common: Common) -> usize
    ensures { result ≡ channels_of common }
{
    usize::from(common.nfchans) + usize::from(common.lfe)
}

pub fn common_in_range(common: Common) -> bool
    ensures { result ≡ common_in_range common }
{
    (common.fscod <= 2)
        & (1 <= common.nfchans)
        & (common.nfchans <= 5)
        & (common.lfe <= 1)
        & (common.sdcycod <= 3)
        & (common.fdcycod <= 3)
        & (common.sgaincod <= 3)
        & (common.dbpbcod <= 3)
        & (common.floorcod <= 7)
        & (common.csnroffst <= 63)
}
