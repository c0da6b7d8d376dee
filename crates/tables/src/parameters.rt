// The parameter tables of A/52 7.2.3 (Tables 7.6 to 7.11): what a code of the track sheet stands for.
ghost use Rattle.std.specs.Prelude.{◌≡◌};
ghost use Rattle.tables.specs.Parameters.{slowdec, fastdec, slowgain, dbpbtab, floortab, fastgain};

// Table 7.6
static SLOWDEC: [u8; 4] = [0x0f, 0x11, 0x13, 0x15];

// Table 7.7
static FASTDEC: [u8; 4] = [0x3f, 0x53, 0x67, 0x7b];

// Table 7.8
static SLOWGAIN: [u16; 4] = [0x540, 0x4d8, 0x478, 0x410];

// Table 7.9
static DBPBTAB: [u16; 4] = [0x000, 0x700, 0x900, 0xb00];

// Table 7.10, 16-bit two's complement as the standard prints it
static FLOORTAB: [u16; 8] = [
    0x02f0, 0x02b0, 0x0270, 0x0230, 0x01f0, 0x0170, 0x00f0, 0xf800,
];

// Table 7.11
static FASTGAIN: [u16; 8] = [0x080, 0x100, 0x180, 0x200, 0x280, 0x300, 0x380, 0x400];

#[tactic(auto, unfolding(crate::specs::Parameters::slowdec))]
pub fn slowdec() -> &'static [u8; 4]
    ensures { result.now ≡ slowdec }
{
    &SLOWDEC
}

#[tactic(auto, unfolding(crate::specs::Parameters::fastdec))]
pub fn fastdec() -> &'static [u8; 4]
    ensures { result.now ≡ fastdec }
{
    &FASTDEC
}

#[tactic(auto, unfolding(crate::specs::Parameters::slowgain))]
pub fn slowgain() -> &'static [u16; 4]
    ensures { result.now ≡ slowgain }
{
    &SLOWGAIN
}

#[tactic(auto, unfolding(crate::specs::Parameters::dbpbtab))]
pub fn dbpbtab() -> &'static [u16; 4]
    ensures { result.now ≡ dbpbtab }
{
    &DBPBTAB
}

#[tactic(auto, unfolding(crate::specs::Parameters::floortab))]
pub fn floortab() -> &'static [u16; 8]
    ensures { result.now ≡ floortab }
{
    &FLOORTAB
}

#[tactic(auto, unfolding(crate::specs::Parameters::fastgain))]
pub fn fastgain() -> &'static [u16; 8]
    ensures { result.now ≡ fastgain }
{
    &FASTGAIN
}
