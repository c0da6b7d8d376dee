// What a bap says of its codes (A/52 7.3, Table 7.18), and the tests of baps and codes.
ghost use Rattle.std.specs.Prelude.{◌≡◌, ◌^◌, ◌≤◌, ◌<◌, length};
ghost use Rattle.mantissas.specs.Calls.{one_length};
ghost use Rattle.mantissas.specs.Ranges.{size, levels, width, group_sizes};
ghost use Rattle.mantissas.specs.Inner.{LevelTable};
ghost use Rattle.mantissas.specs.Stream.{coded, baps_fit};

// Document 01: a stream's slices have at most six channels of 256 bins.
const MOST_ENTRIES: usize = 1536;

// How many codes share a field (A/52 7.3.5).
#[tactic(auto, using(std::proofs::lemmas::Bool::Decides::nat_tests, crate::specs::RangesLaws::size_cases, crate::specs::RangesLaws::row))]
pub fn size(b: u8) -> u8
    requires { b < 16 }
    ensures value { result ≡ size b }
    ensures lower_bound { (1 ≤ result) × (result ≤ 3) }
{
    match b {
        1 | 2 => 3,
        4 => 2,
        _ => 1,
    }
}

// Those of all baps, for a caller that reads many: they are then laid out once.
pub fn group_sizes() -> [u8; 16]
    ensures { result ≡ group_sizes }
{
    std::array::from_fn(|b| size(b as u8))
}

// How many values a code has (Table 7.18, and the one code 0 of bap 0): from bap 6 on as many as its field has.
#[tactic(auto, unfolding(crate::specs::Ranges::levels, tables::specs::Quantizer::level_count, tables::specs::Quantizer::level_counts, tables::specs::Entry::entry))]
pub fn levels(b: u8) -> u32
    requires { b < 16 }
    ensures value { result ≡ levels b }
    ensures lower_bound { (1 ≤ result) × (result ≤ 65536) }
{
    match b {
        0 => 1,
        1 => 3,
        2 => 5,
        3 => 7,
        4 => 11,
        5 => 15,
        _ => 1 << width(b),
    }
}

// Those of all baps, laid out once.
pub fn level_table() -> [u32; 16]
    ensures { LevelTable result }
{
    std::array::from_fn(|b| levels(b as u8))
}

// How many bits the field has.
pub fn width(b: u8) -> u32
    requires { b < 16 }
    ensures value { result ≡ width b }
    ensures upper_bound { result ≤ 16 }
{
    u32::from(tables::quantization_bits()[usize::from(b)])
}

// How many values n codes of a group have together. Written out: by `pow` the reader, which asks for each bin, takes half as long again at end 37.
pub fn values(b: u8, n: u8) -> u32
    requires { (b < 16) × (n ≤ size b) }
    ensures value { result ≡ levels b ^ n }
    ensures lower_bound { (1 ≤ result) × (result ≤ 65536) }
{
    if n == 0 {
        return 1;
    }
    let m = levels(b);
    match n {
        1 => m,
        2 => m * m,
        _ => m * m * m,
    }
}

// Whether two slices have one length, at most 1,536.
#[tactic(auto, unfolding(crate::specs::Calls::one_length))]
pub fn one_length(m: usize, n: usize) -> bool
    ensures { result ≡ one_length m n }
{
    m == n && m <= MOST_ENTRIES
}

// Whether every bap is at most 15. No `all`, whose loop ends at the first that is not: with no such branch many are tested at once.
pub fn check_baps(bap: &[u8]) -> bool
    ensures { result ≡ baps_fit bap.now }
{
    let mut all = true;
    for &b in bap {
        all &= b < 16;
    }
    all
}

// Whether every bap is at most 15 and every code one of its bap's.
pub fn check_codes(bap: &[u8], codes: &[u16]) -> bool
    requires { length bap.now ≡ length codes.now }
    ensures { result ≡ coded bap.now codes.now }
{
    let levels = level_table();
    bap.iter().zip(codes).all(|(&b, &code)| b < 16 && u32::from(code) < levels[usize::from(b)])
}
