// One block of a body: its exponents, its bap and its codes.
ghost use Rattle.std.specs.Prelude.{◌≡◌, ◌*◌, ◌^◌, ◌≤◌, ◌<◌, length};
ghost use Rattle.bits.specs.Field.{bits_of};
ghost use Rattle.sheet.specs.Settings.{channels};
ghost use Rattle.frame_reader.specs.Reading.{HeldRows, CameBlock};

use crate::sets::get_sets;
use bits::Refusal;
use sheet::Track;

// What a block came to: the position after it, and how many bits its sets and its mantissas took.
#[derive(Clone, Copy)]
pub struct BlockEnd {
    pub pos: usize,
    pub sets: u32,
    pub stream: u32,
}

// Block b at `pos`, after the rows of exponents and of bap that held before it; they become its own.
pub(crate) fn get_block(
    track: &Track,
    b: usize,
    input: &[u8],
    pos: usize,
    row: &mut [u8],
    bap: &mut [u8],
    codes: &mut [u16],
) -> Result<BlockEnd, Refusal>
    requires b_bound { (b < 6) × HeldRows track.now.settings b row.old bap.old × (length codes.old ≡ 256 * channels track.now.settings) }
    requires pos_bound { (pos ≤ 8 * length input.now) × (pos < 2 ^ 30) }
    ensures { CameBlock track.now.settings b row.old (bits_of input.now) pos row.new bap.new codes.new result }
{
    let row_end = get_sets(track, b, input, pos, row)?;
    frame_rows::allocate_row(track, b, row, bap);
    let end = mantissas::get_mantissas(input, row_end, bap, codes)?;
    // `as` here: `try_from` with `unwrap` is no plainer where the bound is proved.
    Ok(BlockEnd {
        pos: end,
        sets: (row_end - pos) as u32,
        stream: (end - row_end) as u32,
    })
}
