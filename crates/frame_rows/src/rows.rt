// The allocation of a block's exponents, channel by channel, and that of a frame. That of a run is worked out once.
ghost use Rattle.std.specs.Prelude.{◌≡◌, true, ◌*◌, ◌<◌, length};
ghost use Rattle.sheet.specs.Settings.{channels};
ghost use Rattle.frame.specs.Body.{bap_part, bap_row, baps_of};
ghost use Rattle.frame.specs.Legal.{exps_legal};
ghost use Rattle.frame_rows.specs.Inner.{KeptBap, LowRow, PartReady};

use elements::ExponentSet;
use sheet::{MOST_ROW, Track};

// A channel's part: left where its block is reuse, worked out where it has a new set.
fn allocate_part(track: &Track, c: usize, set: ExponentSet, part: &[u8], bap: &mut [u8])
    requires part_len { (length part.now ≡ 256) × (length bap.old ≡ 256) }
    requires part_ready { PartReady track.now.settings c set part.now bap.old }
    ensures { bap.new ≡ bap_part track.now.settings c part.now }
{
    if let ExponentSet::New(_) = set {
        let end = track.end_at(c);
        let channel = track.record_at(c);
        allocation::allocate(part, end, &track.settings.common, &channel.codes, bap);
    }
}

// The bap of block b, in place over that of the block before.
pub fn allocate_row(track: &Track, b: usize, row: &[u8], bap: &mut [u8])
    requires b_bound { (b < 6) × (length row.now ≡ 256 * channels track.now.settings) × (length bap.old ≡ 256 * channels track.now.settings) }
    requires low_row { LowRow track.now.settings row.now }
    requires kept_bap { KeptBap track.now.settings b row.now bap.old }
    ensures { bap.new ≡ bap_row track.now.settings row.now }
{
    let n = track.channels();
    for c in 0..n {
        let set = track.set_at(b, c);
        let a = 256 * c;
        let e = a + 256;
        allocate_part(track, c, set, &row[a..e], &mut bap[a..e]);
    }
}

// The bap of all six blocks. The row holds that of the block before, of which a reuse block keeps its channel's part.
#[tactic(auto, using(crate::specs::RowsLaws::row_inside))]
pub fn allocate_body(track: &Track, exps: &[u8], bap: &mut [u8])
    requires exps_len { (length exps.now ≡ 256 * channels track.now.settings * 6) × (length bap.old ≡ 256 * channels track.now.settings * 6) }
    requires exps_value { exps_legal track.now.settings exps.now ≡ true }
    ensures { bap.new ≡ baps_of track.now.settings exps.now }
{
    let n = track.channels();
    let z = 256 * n;
    let mut row = [0u8; MOST_ROW];
    for b in 0..6 {
        let a = z * b;
        let e = a + z;
        allocate_row(track, b, &exps[a..e], &mut row[0..z]);
        bap[a..e].copy_from_slice(&row[0..z]);
    }
}
