// The quantizers of A/52 7.2.3 and 7.3 (Tables 7.16, 7.18 and 7.19 to 7.23): the bap of an address, the bits and the levels of a bap.
ghost use Rattle.std.specs.Prelude.{◌≡◌, ◌≤◌};
ghost use Rattle.tables.specs.Quantizer.{baptab, quantization_bits, level_count, levels};

// Table 7.16
static BAPTAB: [u8; 64] = [
    0, 1, 1, 1, 1, 1, 2, 2, 3, 3, 3, 4, 4, 5, 5, 6, 6, 6, 6, 7, 7, 7, 7, 8, 8, 8, 8, 9, 9, 9, 9,
    10, 10, 10, 10, 11, 11, 11, 11, 12, 12, 12, 12, 13, 13, 13, 13, 14, 14, 14, 14, 14, 14, 14, 14,
    15, 15, 15, 15, 15, 15, 15, 15, 15,
];

// Table 7.18: the bits of a field, which for bap 1, 2 and 4 holds a group of 3, 3 and 2 mantissas
static QUANTIZATION_BITS: [u8; 16] = [0, 5, 7, 3, 7, 4, 5, 6, 7, 8, 9, 10, 11, 12, 14, 16];

// Table 7.19, bap 1
static MANT_LEVEL_3: [f32; 3] = [-2.0 / 3.0, 0.0, 2.0 / 3.0];

// Table 7.20, bap 2
static MANT_LEVEL_5: [f32; 5] = [-4.0 / 5.0, -2.0 / 5.0, 0.0, 2.0 / 5.0, 4.0 / 5.0];

// Table 7.21, bap 3
static MANT_LEVEL_7: [f32; 7] = [
    -6.0 / 7.0,
    -4.0 / 7.0,
    -2.0 / 7.0,
    0.0,
    2.0 / 7.0,
    4.0 / 7.0,
    6.0 / 7.0,
];

// Table 7.22, bap 4
static MANT_LEVEL_11: [f32; 11] = [
    -10.0 / 11.0,
    -8.0 / 11.0,
    -6.0 / 11.0,
    -4.0 / 11.0,
    -2.0 / 11.0,
    0.0,
    2.0 / 11.0,
    4.0 / 11.0,
    6.0 / 11.0,
    8.0 / 11.0,
    10.0 / 11.0,
];

// Table 7.23, bap 5
static MANT_LEVEL_15: [f32; 15] = [
    -14.0 / 15.0,
    -12.0 / 15.0,
    -10.0 / 15.0,
    -8.0 / 15.0,
    -6.0 / 15.0,
    -4.0 / 15.0,
    -2.0 / 15.0,
    0.0,
    2.0 / 15.0,
    4.0 / 15.0,
    6.0 / 15.0,
    8.0 / 15.0,
    10.0 / 15.0,
    12.0 / 15.0,
    14.0 / 15.0,
];

#[tactic(auto, unfolding(crate::specs::Quantizer::baptab))]
pub fn baptab() -> &'static [u8; 64]
    ensures { result.now ≡ baptab }
{
    &BAPTAB
}

#[tactic(auto, unfolding(crate::specs::Quantizer::quantization_bits))]
pub fn quantization_bits() -> &'static [u8; 16]
    ensures { result.now ≡ quantization_bits }
{
    &QUANTIZATION_BITS
}

// The levels of bap 1 to 5, by their codes.
pub fn mant_level(bap: u8) -> &'static [f32]
    requires { (1 ≤ bap) × (bap ≤ 5) }
    ensures { result.now ≡ levels (level_count bap) }
{
    match bap {
        1 => &MANT_LEVEL_3,
        2 => &MANT_LEVEL_5,
        3 => &MANT_LEVEL_7,
        4 => &MANT_LEVEL_11,
        _ => &MANT_LEVEL_15,
    }
}
