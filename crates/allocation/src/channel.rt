// The allocation of one channel (the Rust's `compute_bap`), and the call that turns back what it cannot take.
ghost use Rattle.std.specs.Prelude.{◌≡◌, length};
ghost use Rattle.allocation.specs.Allocation.{allocated, answer_of, left_in};
ghost use Rattle.allocation.specs.Legal.{LegalBins, LegalCodes};

use crate::bap::fill_bins;
use crate::initialization::initialize;
use crate::ranges::{exponents_fit, in_range, right_lengths};
use bits::Refusal;
use excitation::{band_powers, excite_bands};
use masking::band_deltas;
use sheet::{ChannelCodes, Common};

// The pointers of the bins below end, 0 from end on.
pub fn allocate(exp: &[u8], end: usize, common: &Common, channel: &ChannelCodes, bap: &mut [u8])
    requires legal_codes { LegalCodes common.now channel.now }
    requires legal_bins { LegalBins exp.now end (length bap.old) }
    ensures { bap.new ≡ allocated common.now channel.now end exp.now (length bap.old) }
{
    let hth = tables::hth(common.fscod);
    let p = initialize(common, channel);
    let bins = &exp[..end];
    let mut powers = [0u16; 51];
    let bands = band_powers(bins, &mut powers);
    let mut excites = [0u16; 50];
    excite_bands(p.leak, end == 7, &powers, bands, &mut excites);
    let added = band_deltas(channel.segments_in_use());
    fill_bins(exp, end, bands, p, &powers, &excites, &added, hth, bap);
    bap[end..].fill(0);
}

pub fn compute_bap(
    exp: &[u8],
    end: usize,
    common: &Common,
    channel: &ChannelCodes,
    bap: &mut [u8],
) -> Result<(), Refusal>
    ensures value { result ≡ answer_of common.now channel.now end exp.now (length bap.old) }
    ensures bap_after { bap.new ≡ left_in common.now channel.now end exp.now bap.old }
{
    if !in_range(common, channel, end) {
        return Err(Refusal::OutOfRange);
    }
    if !right_lengths(end, exp.len(), bap.len()) {
        return Err(Refusal::WrongLength);
    }
    if !exponents_fit(exp, end) {
        return Err(Refusal::BadExponent);
    }
    allocate(exp, end, common, channel, bap);
    Ok(())
}
