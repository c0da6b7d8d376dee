// The codes and segments of a case as the common part and the channel's codes that an allocation takes.
// Every value that it does not look at is out of its range. replay/src/allocation_steps.rt has functions like these: each test program stands alone.
use elements::Segment;
use sheet::{ChannelCodes, Common};

#[derive(Clone, Copy)]
pub struct Codes {
    pub fscod: u8,
    pub sdcycod: u8,
    pub fdcycod: u8,
    pub sgaincod: u8,
    pub dbpbcod: u8,
    pub floorcod: u8,
    pub csnroffst: u8,
    pub fsnroffst: u8,
    pub fgaincod: u8,
}

// Codes from which each other value of one of them gives another allocation (codes.rt).
pub const BASE: Codes = Codes {
    fscod: 1,
    sdcycod: 2,
    fdcycod: 0,
    sgaincod: 0,
    dbpbcod: 1,
    floorcod: 7,
    csnroffst: 28,
    fsnroffst: 14,
    fgaincod: 6,
};

// Codes of which each is 0.
pub const ZERO: Codes = Codes {
    fscod: 0,
    sdcycod: 0,
    fdcycod: 0,
    sgaincod: 0,
    dbpbcod: 0,
    floorcod: 0,
    csnroffst: 0,
    fsnroffst: 0,
    fgaincod: 0,
};

// The first nseg of them are there. No slice of segments: nseg may be 9 or 255 here, which no eight segments can say.
#[derive(Clone, Copy)]
pub struct Segments {
    pub nseg: u8,
    pub segments: [Segment; 8],
}

// From the segments' values side by side.
pub(crate) fn columns(nseg: u8, offst: [u8; 8], len: [u8; 8], ba: [u8; 8]) -> Segments {
    let mut segments = [Segment {
        offst: 0,
        len: 0,
        ba: 0,
    }; 8];
    for i in 0..8 {
        segments[i] = Segment {
            offst: offst[i],
            len: len[i],
            ba: ba[i],
        };
    }
    Segments { nseg, segments }
}

// No segment; those that are not there are out of range.
pub(crate) fn none() -> Segments {
    columns(0, [255; 8], [255; 8], [255; 8])
}

impl From<Codes> for Common {
    fn from(codes: Codes) -> Self {
        Common {
            fscod: codes.fscod,
            nfchans: 255,
            lfe: 255,
            sdcycod: codes.sdcycod,
            fdcycod: codes.fdcycod,
            sgaincod: codes.sgaincod,
            dbpbcod: codes.dbpbcod,
            floorcod: codes.floorcod,
            csnroffst: codes.csnroffst,
        }
    }
}

pub(crate) fn channel_of(codes: Codes, segments: Segments) -> ChannelCodes {
    let eight = segments.segments;
    ChannelCodes {
        fsnroffst: codes.fsnroffst,
        fgaincod: codes.fgaincod,
        nseg: segments.nseg,
        segments: eight,
    }
}
