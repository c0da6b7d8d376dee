// The psd of a bin (A/52 7.2.2.2) and the psds of the bands (7.2.2.3).
ghost use Rattle.std.specs.Prelude.{◌≡◌, ℕ, ◌+◌, ◌<◌, ◌≤◌, min, get_or, length, replicate, take};
ghost use Rattle.bits.specs.Parts.{tab};
ghost use Rattle.excitation.specs.BandOrder.{Bands};
ghost use Rattle.excitation.specs.BandPsd.{bndpsd, joined_psd, logadd};
ghost use Rattle.excitation.specs.Front.{front};
ghost use Rattle.excitation.specs.Psd as bin;

// Bands 0 to 27 are one bin each.
pub const SINGLES: usize = 28;

fn psd(exponent: u8) -> u32
    requires { exponent ≤ 24 }
    ensures { result ≡ bin.psd exponent }
{
    3072 - 128 * u32::from(exponent)
}

pub fn logadd(a: u32, b: u32) -> u32
    requires { (a ≤ 8191) × (b ≤ 8191) }
    ensures { result ≡ logadd a b }
{
    let larger = a.max(b);
    let address = ((larger - a.min(b)) / 2).min(255);
    larger + u32::from(tables::latab(address as usize))
}

// The psds of a band's bins, at least one, joined.
fn joined_psd(bins: &[u8]) -> u32
    requires least { 1 ≤ length bins.now }
    requires by_index { (i : ℕ) → i < length bins.now → get_or bins.now i 0 ≤ 24 }
    ensures { result ≡ joined_psd bins.now 0 (length bins.now) }
{
    let mut joined = psd(bins[0]);
    for &exponent in &bins[1..] {
        joined = logadd(joined, psd(exponent));
    }
    joined
}

// The bin behind the last of a band that starts at bin.
pub fn band_end(bin: usize, size: u8, end: usize) -> usize
    requires { bin ≤ 253 }
    ensures { result ≡ min (bin + size) end }
{
    (bin + usize::from(size)).min(end)
}

// The bands of one bin each.
fn single_powers(exp: &[u8], bins: usize, powers: &mut [u16; 51])
    requires bins_bound { (bins ≤ 28) × (bins ≤ length exp.now) }
    requires by_index { (i : ℕ) → i < length exp.now → get_or exp.now i 0 ≤ 24 }
    ensures { powers.new ≡ front (bndpsd exp.now 0 (length exp.now)) bins powers.old }
{
    for bin in 0..bins {
        powers[bin] = psd(exp[bin]) as u16;
    }
}

// The bands of more than one bin; gives the number of all bands.
fn joined_powers(exp: &[u8], powers: &mut [u16; 51]) -> usize
    requires exp_len { (28 ≤ length exp.now) × (length exp.now ≤ 253) }
    requires by_index { (i : ℕ) → i < length exp.now → get_or exp.now i 0 ≤ 24 }
    requires powers_value { take 28 powers.old ≡ tab 28 (bndpsd exp.now 0 (length exp.now)) }
    ensures bands { Bands (length exp.now) result }
    ensures lower_bound { (28 ≤ result) × (powers.new ≡ front (bndpsd exp.now 0 (length exp.now)) result powers.old) }
{
    let bndtab = tables::bndtab();
    let bndsz = tables::bndsz();
    for band in SINGLES..50 {
        let bin = usize::from(bndtab[band]);
        if exp.len() <= bin {
            return band;
        }
        let next = band_end(bin, bndsz[band], exp.len());
        powers[band] = joined_psd(&exp[bin..next]) as u16;
    }
    50
}

// The psds of all bands of a channel's bins, as an array with one entry more than there are bands, since A/52 7.2.2.4 looks at the next band too:
// past the last band it is 0. Gives the number of bands.
pub fn band_powers(exp: &[u8], powers: &mut [u16; 51]) -> usize
    requires exp_len { (length exp.now ≤ 253) × (powers.old ≡ replicate 51 0) }
    requires by_index { (i : ℕ) → i < length exp.now → get_or exp.now i 0 ≤ 24 }
    ensures bands { Bands (length exp.now) result }
    ensures powers_after { powers.new ≡ tab 51 (bndpsd exp.now 0 (length exp.now)) }
{
    if exp.len() < SINGLES {
        single_powers(exp, exp.len(), powers);
        return exp.len();
    }
    single_powers(exp, SINGLES, powers);
    joined_powers(exp, powers)
}
