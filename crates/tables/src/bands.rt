// The bands of A/52 7.2.3: where a band starts and how many bins it has (Table 7.12, two columns), and the band of a bin (Table 7.13).
ghost use Rattle.std.specs.Prelude.{◌≡◌, ◌<◌};
ghost use Rattle.tables.specs.Entry.{entry};
ghost use Rattle.tables.specs.Bands.{bndtab, bndsz, masktab};

// Table 7.12, first column
static BNDTAB: [u8; 50] = [
    0, 1, 2, 3, 4, 5, 6, 7, 8, 9, 10, 11, 12, 13, 14, 15, 16, 17, 18, 19, 20, 21, 22, 23, 24, 25,
    26, 27, 28, 31, 34, 37, 40, 43, 46, 49, 55, 61, 67, 73, 79, 85, 97, 109, 121, 133, 157, 181,
    205, 229,
];

// Table 7.12, second column
static BNDSZ: [u8; 50] = [
    1, 1, 1, 1, 1, 1, 1, 1, 1, 1, 1, 1, 1, 1, 1, 1, 1, 1, 1, 1, 1, 1, 1, 1, 1, 1, 1, 1, 3, 3, 3, 3,
    3, 3, 3, 6, 6, 6, 6, 6, 6, 12, 12, 12, 12, 24, 24, 24, 24, 24,
];

#[tactic(auto, unfolding(crate::specs::Bands::bndtab))]
pub fn bndtab() -> &'static [u8; 50]
    ensures { result.now ≡ bndtab }
{
    &BNDTAB
}

#[tactic(auto, unfolding(crate::specs::Bands::bndsz))]
pub fn bndsz() -> &'static [u8; 50]
    ensures { result.now ≡ bndsz }
{
    &BNDSZ
}

// Table 7.13 is not stored. The bands lie side by side, so a bin is in the first that ends behind it; bins 253 to 255 are in none and stand as 0.
pub fn masktab(bin: usize) -> u8
    requires { bin < 256 }
    ensures { result ≡ entry masktab bin }
{
    for band in 0..50 {
        if bin < usize::from(BNDTAB[band]) + usize::from(BNDSZ[band]) {
            return band as u8;
        }
    }
    0
}
