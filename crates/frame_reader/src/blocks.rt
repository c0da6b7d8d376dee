// The six blocks of a body.
ghost use Rattle.std.specs.Prelude.{◌≡◌, ◌*◌, length, replicate};
ghost use Rattle.bits.specs.Field.{bits_of};
ghost use Rattle.sheet.specs.Settings.{channels};
ghost use Rattle.frame.specs.Reader.{read_frame};
ghost use Rattle.frame_reader.specs.Reading.{CameFrame, SixRows};

use crate::block::get_block;
use bits::Refusal;
use frame::BodyBits;
use sheet::Track;

// The blocks up to the first fault. `row` and `held` have the exponents and the bap that hold when a block begins.
// These two, and the three buffers, stay slices beside each other: a struct would be made of lent parts only to be taken apart again, and is no plainer.
pub(crate) fn get_blocks(
    track: &Track,
    input: &[u8],
    row: &mut [u8],
    held: &mut [u8],
    exps: &mut [u8],
    bap: &mut [u8],
    codes: &mut [u16],
) -> Result<BodyBits, Refusal>
    requires row_value { (row.old ≡ replicate (256 * channels track.now.settings) 0) × (length held.old ≡ 256 * channels track.now.settings) }
    requires lengths { SixRows track.now.settings exps.old bap.old codes.old }
    ensures { CameFrame (read_frame track.now.settings (bits_of input.now)) (bits_of input.now) exps.new bap.new codes.new result }
{
    let z = 256 * track.channels();
    let mut counts = [0u32; 12];
    let mut at = 0;
    for b in 0..6 {
        let a = z * b;
        let e = a + z;
        let end = get_block(track, b, input, at, row, held, &mut codes[a..e])?;
        exps[a..e].copy_from_slice(row);
        bap[a..e].copy_from_slice(held);
        counts[b] = end.sets;
        counts[6 + b] = end.stream;
        at = end.pos;
    }
    // `as` here: `try_from` with `unwrap` is no plainer where the bound is proved.
    Ok(BodyBits {
        counts,
        bits: at as u32,
    })
}
