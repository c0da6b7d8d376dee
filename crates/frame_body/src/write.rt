// The bits of a body (document 01, "The frame body"; A/52 5.4.3), block by block: the new exponent sets by channel number, then all mantissas.
// The output stands beside the writer: of a struct that lends it, what is left in the slice was not tied to the struct at the end.
ghost use Rattle.std.specs.Prelude.{◌≡◌, true, ◌*◌, ◌≤◌, ◌<◌, length};
ghost use Rattle.bits.specs.Answer.{stored};
ghost use Rattle.bits.specs.Bytes.{bytes_for};
ghost use Rattle.bits.specs.Write.{Ready, Put};
ghost use Rattle.mantissas.specs.Inner.{Coded};
ghost use Rattle.mantissas.specs.Stream.{stream};
ghost use Rattle.sheet.specs.Ranges.{legal_end};
ghost use Rattle.sheet.specs.Settings.{channels};
ghost use Rattle.frame.specs.Layout.{clean_row, cleaned};
ghost use Rattle.frame.specs.Body.{set_bits, sets_bits, bap_row, block_bits, body_bits, baps_of};
ghost use Rattle.frame.specs.Legal.{LegalFrame};
ghost use Rattle.frame_body.specs.Writing.{NewSet, NewSets, below_ends};

use crate::gather::gather;
use bits::Writer;
use elements::ExponentSet;
use sheet::{MOST_ROW, Track};

// A channel's exponents in a block: none where the block reuses the earlier ones.
fn put_part(out: &mut [u8], w: Writer, part: &[u8], set: ExponentSet, end: usize) -> Writer
    requires end_value { (legal_end end ≡ true) × (end ≤ length part.now) }
    requires new_set { NewSet set end part.now }
    requires ready { Ready w (length out.old) (length (set_bits set end part.now)) }
    ensures { Put out.old w (set_bits set end part.now) out.new result }
{
    match set {
        ExponentSet::Reuse => w,
        ExponentSet::New(strategy) => exponents::put_exponents(out, w, part, end, strategy),
    }
}

// The new exponent sets of a block, by channel number.
fn put_sets(out: &mut [u8], w: Writer, track: &Track, b: usize, row: &[u8]) -> Writer
    requires b_bound { (b < 6) × (length row.now ≡ 256 * channels track.now.settings) }
    requires new_sets { NewSets track.now.settings b row.now }
    requires ready { Ready w (length out.old) (length (sets_bits track.now.settings b row.now)) }
    ensures { Put out.old w (sets_bits track.now.settings b row.now) out.new result }
{
    let n = track.channels();
    let mut w = w;
    for c in 0..n {
        let set = track.set_at(b, c);
        let end = track.end_at(c);
        let a = 256 * c;
        let e = a + 256;
        w = put_part(out, w, &row[a..e], set, end);
    }
    w
}

// The mantissas of a block as one stream over all channels: the bins below each end, the others having no bits.
fn put_bins(out: &mut [u8], w: Writer, track: &Track, bap: &[u8], codes: &[u16]) -> Writer
    requires bap_len { (length bap.now ≡ 256 * channels track.now.settings) × (length codes.now ≡ 256 * channels track.now.settings) }
    requires coded { Coded (below_ends track.now.settings bap.now) (below_ends track.now.settings codes.now) }
    requires ready { Ready w (length out.old) (length (stream (below_ends track.now.settings bap.now) (below_ends track.now.settings codes.now))) }
    ensures { Put out.old w (stream (below_ends track.now.settings bap.now) (below_ends track.now.settings codes.now)) out.new result }
{
    let mut low_bap = [0u8; MOST_ROW];
    let mut low_codes = [0u16; MOST_ROW];
    let n = gather(track, bap, &mut low_bap);
    let m = gather(track, codes, &mut low_codes);
    mantissas::put_mantissas(out, w, &low_bap[0..n], &low_codes[0..m])
}

// A block: its sets, then its mantissas.
fn put_block(
    out: &mut [u8],
    w: Writer,
    track: &Track,
    b: usize,
    row: &[u8],
    bap: &[u8],
    codes: &[u16],
) -> Writer
    requires b_bound { (b < 6) × (length row.now ≡ 256 * channels track.now.settings) }
    requires new_sets { NewSets track.now.settings b row.now }
    requires bap_value { (bap.now ≡ bap_row track.now.settings row.now) × (clean_row track.now.settings codes.now ≡ codes.now) × Coded bap.now codes.now }
    requires ready { Ready w (length out.old) (length (block_bits track.now.settings b row.now codes.now)) }
    ensures { Put out.old w (block_bits track.now.settings b row.now codes.now) out.new result }
{
    let sets = put_sets(out, w, track, b, row);
    put_bins(out, sets, track, bap, codes)
}

// The six blocks.
#[tactic(auto, using(frame_rows::specs::RowsLaws::row_inside))]
fn put_body(
    out: &mut [u8],
    w: Writer,
    track: &Track,
    exps: &[u8],
    bap: &[u8],
    codes: &[u16],
) -> Writer
    requires exps_len { (length exps.now ≡ 256 * channels track.now.settings * 6) × (length bap.now ≡ 256 * channels track.now.settings * 6) × (length codes.now ≡ 256 * channels track.now.settings * 6) }
    requires legal_frame { LegalFrame track.now.settings exps.now codes.now }
    requires bap_value { (bap.now ≡ baps_of track.now.settings exps.now) × (cleaned track.now.settings codes.now ≡ codes.now) }
    requires ready { Ready w (length out.old) (length (body_bits track.now.settings exps.now codes.now)) }
    ensures { Put out.old w (body_bits track.now.settings exps.now codes.now) out.new result }
{
    let n = track.channels();
    let z = 256 * n;
    let mut w = w;
    for b in 0..6 {
        let a = z * b;
        let e = a + z;
        w = put_block(out, w, track, b, &exps[a..e], &bap[a..e], &codes[a..e]);
    }
    w
}

// The body from the first bit of the output on, closed with zero bits to the byte; the bytes after it stay.
pub fn store_body(out: &mut [u8], track: &Track, exps: &[u8], bap: &[u8], codes: &[u16])
    requires exps_len { (length exps.now ≡ 256 * channels track.now.settings * 6) × (length bap.now ≡ 256 * channels track.now.settings * 6) × (length codes.now ≡ 256 * channels track.now.settings * 6) }
    requires legal_frame { LegalFrame track.now.settings exps.now codes.now }
    requires bap_value { (bap.now ≡ baps_of track.now.settings exps.now) × (cleaned track.now.settings codes.now ≡ codes.now) }
    requires codes_in_bounds { bytes_for (length (body_bits track.now.settings exps.now codes.now)) ≤ length out.old }
    ensures { out.new ≡ stored (body_bits track.now.settings exps.now codes.now) out.old }
{
    let w = put_body(out, bits::start(), track, exps, bap, codes);
    bits::finish(out, w);
}
