// What the frame's calls answer (document 01, "The frame body", "When a call is turned back").

/// Six exponent counts, then six mantissa counts, twelve in a row as the C interface has them; the bits of the body, as written or as read.
#[derive(Clone, Copy, Debug, PartialEq, Eq)]
pub struct BodyBits {
    pub counts: [u32; 12],
    pub bits: u32,
}
