// The bit allocation pointers of the bins (A/52 7.2.2.7), from the psds, excitations, deltas and thresholds of the bands.
ghost use Rattle.std.specs.Prelude.{◌≡◌, ℕ, ◌+◌, ◌-◌, ◌*◌, ◌<◌, ◌≤◌, min, get_or, length, replicate, take};
ghost use Rattle.bits.specs.Parts.{tab};
ghost use Rattle.tables.specs.Quantizer as quantizer;
ghost use Rattle.excitation.specs.BandOrder.{Bands};
ghost use Rattle.excitation.specs.Front.{front};
ghost use Rattle.allocation.specs.Held.{BandArrays, BandBases, Small, bap_by, bap_from, base_by, base_of};

use crate::initialization::Parameters;
use crate::window::window;
use excitation::{SINGLES, band_end};
use masking::masking_curve;

// Where a bin with exponent 0 of a band stands in the window. The mask less the offset and the floor, `lower`, is held to 0 before 0x1fe0 is applied;
// `top` is the address where nothing is left of it.
#[tactic(auto, unfolding(crate::specs::Held::base_of, masking::specs::Held::held_curve))]
fn band_base(
    dbknee: u16,
    lower: u16,
    top: u16,
    excite: u16,
    power: u16,
    threshold: u16,
    added: u16,
) -> u16
    requires { (dbknee ≤ 8191) × (top ≤ 160) × (excite ≤ 8191) × (threshold ≤ 8191) × (added ≤ 32768) }
    ensures { result ≡ base_of dbknee lower top excite power threshold added }
{
    // the delta is 512 up, the offset and the floor are 960 and 2048 up
    let mask = masking_curve(excite, power, dbknee, threshold) + added + 2496;
    let lowered = (mask.saturating_sub(lower) & 0x1fe0) / 32;
    111 + top.saturating_sub(lowered)
}

// The bases of the first bands, 111 for the others: every base lies in the window. A loop without a branch over arrays of numbers of one size, which
// can be made of vectors.
fn band_bases(
    bands: usize,
    p: Parameters,
    powers: &[u16; 51],
    excites: &[u16; 50],
    added: &[u16; 50],
    hth: &[u16; 50],
) -> [u16; 50]
    requires bands_bound { bands ≤ 50 }
    requires small { Small p }
    requires band_arrays { BandArrays powers.now excites.now added.now hth.now }
    ensures { result ≡ front (base_by p powers.now excites.now added.now hth.now) bands (replicate 50 111) }
{
    let dbknee = p.dbknee as u16;
    let lower = (p.snroffset + p.floor) as u16;
    let top = ((5120 - p.floor) / 32) as u16;
    let mut bases = [111u16; 50];
    for band in 0..bands {
        bases[band] = band_base(
            dbknee,
            lower,
            top,
            excites[band],
            powers[band],
            hth[band],
            added[band],
        );
    }
    bases
}

// The pointers of a band's bins, by the part of the exponents that is theirs.
fn fill_band(exp: &[u8], base: usize, window: &[u8; 272], bap: &mut [u8])
    requires exp_len { (length exp.now ≡ length bap.old) × (length window.now ≡ 272) × (111 ≤ base) × (base ≤ 271) }
    requires by_index { (i : ℕ) → i < length exp.now → get_or exp.now i 0 ≤ 24 }
    ensures { bap.new ≡ tab (length bap.old) (λ i. get_or window.now (base - 4 * get_or exp.now i 0) 0) }
{
    for i in 0..bap.len() {
        bap[i] = window[base - 4 * usize::from(exp[i])];
    }
}

// The bins of the bands behind the singles.
fn fill_joined(exp: &[u8], bases: &[u16; 50], bap: &mut [u8])
    requires exp_len { (28 ≤ length exp.now) × (length exp.now ≤ 253) × (length exp.now ≡ length bap.old) }
    requires by_index { (bin : ℕ) → bin < length exp.now → get_or exp.now bin 0 ≤ 24 }
    requires band_bases { BandBases bases.now }
    requires bap_value { take 28 bap.old ≡ tab 28 (bap_from bases.now exp.now) }
    ensures { bap.new ≡ tab (length exp.now) (bap_from bases.now exp.now) }
{
    let table = window();
    let bndtab = tables::bndtab();
    let bndsz = tables::bndsz();
    for band in SINGLES..50 {
        let bin = usize::from(bndtab[band]);
        if exp.len() <= bin {
            return;
        }
        let next = band_end(bin, bndsz[band], exp.len());
        fill_band(
            &exp[bin..next],
            usize::from(bases[band]),
            &table,
            &mut bap[bin..next],
        );
    }
}

// The bap of a bin by its band's base, from BAPTAB itself: the address is held to 0 .. 63.
fn held_pointer(base: u16, exponent: u8) -> u8
    requires { exponent ≤ 24 }
    ensures { result ≡ get_or quantizer.baptab (min (base - (111 + 4 * exponent)) 63) 0 }
{
    let address = base.saturating_sub(111 + 4 * u16::from(exponent)).min(63);
    tables::baptab()[usize::from(address)]
}

// The bins that are bands of their own, for which a window is not worth laying out: all those of the LFE.
fn fill_singles(exp: &[u8], bins: usize, bases: &[u16; 50], bap: &mut [u8])
    requires bins_bound { (bins ≤ 28) × (bins ≤ length exp.now) × (bins ≤ length bap.old) }
    requires by_index { (bin : ℕ) → bin < bins → get_or exp.now bin 0 ≤ 24 }
    requires band_bases { BandBases bases.now }
    ensures { take bins bap.new ≡ tab bins (bap_from bases.now exp.now) }
{
    for bin in 0..bins {
        bap[bin] = held_pointer(bases[bin], exp[bin]);
    }
}

// At least so many bands, four at a time where there are so many, so that none is left over from a loop that is made of vectors.
fn by_fours(bands: usize) -> usize
    requires { bands ≤ 50 }
    ensures { (bands ≤ result) × (result ≤ 50) }
{
    bands.next_multiple_of(4).min(50)
}

// All bins, by the bases of their bands.
fn fill_by_bases(exp: &[u8], bases: &[u16; 50], bap: &mut [u8])
    requires exp_len { (length exp.now ≤ 253) × (length exp.now ≡ length bap.old) }
    requires by_index { (bin : ℕ) → bin < length exp.now → get_or exp.now bin 0 ≤ 24 }
    requires band_bases { BandBases bases.now }
    ensures { bap.new ≡ tab (length exp.now) (bap_from bases.now exp.now) }
{
    if exp.len() < SINGLES {
        fill_singles(exp, exp.len(), bases, bap);
        return;
    }
    fill_singles(exp, SINGLES, bases, bap);
    fill_joined(exp, bases, bap);
}

// All bins below end, by the arrays of the bands, each of its own: it is public, and takes any.
pub fn fill_bins(
    exp: &[u8],
    end: usize,
    bands: usize,
    p: Parameters,
    powers: &[u16; 51],
    excites: &[u16; 50],
    added: &[u16; 50],
    hth: &[u16; 50],
    bap: &mut [u8],
)
    requires end_bound { (end ≤ 253) × (end ≤ length exp.now) × (end ≤ length bap.old) }
    requires bands { Bands end bands }
    requires by_index { (bin : ℕ) → bin < end → get_or exp.now bin 0 ≤ 24 }
    requires small { Small p }
    requires band_arrays { BandArrays powers.now excites.now added.now hth.now }
    ensures { take end bap.new ≡ tab end (bap_by p powers.now excites.now added.now hth.now exp.now) }
{
    let bases = band_bases(by_fours(bands), p, powers, excites, added, hth);
    fill_by_bases(&exp[..end], &bases, &mut bap[..end]);
}
