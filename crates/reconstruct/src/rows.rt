// The listening copy, part by part: a channel's bins, a block, a frame. Flags and levels are two slices: the C interface lends them so.
ghost use Rattle.std.specs.Prelude.{◌≡◌, map, ◌*◌, ◌≤◌, length};
ghost use Rattle.sheet.specs.Settings.{channels};
ghost use Rattle.frame.specs.Legal.{LegalFrame};
ghost use Rattle.frame.specs.Body.{baps_of};
ghost use Rattle.reconstruct.specs.Bin.{flag_of, level_of};
ghost use Rattle.reconstruct.specs.Copy.{copy_bins, copy_part, copy_row, flags_of, levels_of};
ghost use Rattle.reconstruct.specs.Inner.{LegalBins, LegalRow, Whole};

use crate::mantissa::level_at;
use sheet::Track;

fn reconstruct_bins(
    exps: &[u8],
    bap: &[u8],
    codes: &[u16],
    has_level: &mut [u8],
    levels: &mut [f32],
)
    requires legal_bins { LegalBins exps.now bap.now codes.now }
    requires has_level_len { (length has_level.old ≡ length exps.now) × (length levels.old ≡ length exps.now) }
    ensures has_level_after { has_level.new ≡ map flag_of (copy_bins (length exps.now) exps.now bap.now codes.now) }
    ensures levels_after { levels.new ≡ map level_of (copy_bins (length exps.now) exps.now bap.now codes.now) }
{
    let counts = mantissas::code::level_table();
    for i in 0..exps.len() {
        let b = bap[i];
        has_level[i] = u8::from(b != 0);
        levels[i] = level_at(
            u32::from(exps[i]),
            b,
            u32::from(codes[i]),
            counts[usize::from(b)],
        );
    }
}

// A channel's part: its bins below end, and 0 from there on.
fn reconstruct_part(
    exps: &[u8],
    bap: &[u8],
    codes: &[u16],
    has_level: &mut [u8],
    levels: &mut [f32],
)
    requires legal_bins { LegalBins exps.now bap.now codes.now }
    requires exps_len_bound { (length exps.now ≤ 256) × (length has_level.old ≡ 256) × (length levels.old ≡ 256) }
    ensures has_level_after { has_level.new ≡ map flag_of (copy_part (length exps.now) exps.now bap.now codes.now) }
    ensures levels_after { levels.new ≡ map level_of (copy_part (length exps.now) exps.now bap.now codes.now) }
{
    let end = exps.len();
    reconstruct_bins(
        exps,
        bap,
        codes,
        &mut has_level[0..end],
        &mut levels[0..end],
    );
    has_level[end..256].fill(0);
    levels[end..256].fill(0.0);
}

// A block.
fn reconstruct_row(
    track: &Track,
    exps: &[u8],
    bap: &[u8],
    codes: &[u16],
    has_level: &mut [u8],
    levels: &mut [f32],
)
    requires legal_row { LegalRow track.now.settings exps.now bap.now codes.now }
    requires has_level_len { (length has_level.old ≡ 256 * channels track.now.settings) × (length levels.old ≡ 256 * channels track.now.settings) }
    ensures has_level_after { has_level.new ≡ map flag_of (copy_row track.now.settings exps.now codes.now) }
    ensures levels_after { levels.new ≡ map level_of (copy_row track.now.settings exps.now codes.now) }
{
    let n = track.channels();
    for c in 0..n {
        let a = 256 * c;
        let e = a + track.end_at(c);
        let q = a + 256;
        reconstruct_part(
            &exps[a..e],
            &bap[a..e],
            &codes[a..e],
            &mut has_level[a..q],
            &mut levels[a..q],
        );
    }
}

// All six blocks of a legal frame, at its allocation.
pub(crate) fn reconstruct_frame(
    track: &Track,
    exps: &[u8],
    bap: &[u8],
    codes: &[u16],
    has_level: &mut [u8],
    levels: &mut [f32],
)
    requires legal_frame { LegalFrame track.now.settings exps.now codes.now × (bap.now ≡ baps_of track.now.settings exps.now) }
    requires whole { Whole track.now.settings (length exps.now) (length codes.now) (length has_level.old) (length levels.old) }
    ensures has_level_after { has_level.new ≡ flags_of track.now.settings exps.now codes.now }
    ensures levels_after { levels.new ≡ levels_of track.now.settings exps.now codes.now }
{
    let n = track.channels();
    let z = 256 * n;
    for b in 0..6 {
        let a = z * b;
        let e = a + z;
        reconstruct_row(
            track,
            &exps[a..e],
            &bap[a..e],
            &codes[a..e],
            &mut has_level[a..e],
            &mut levels[a..e],
        );
    }
}
