// The mantissa bits of a frame's six blocks (the Rust's `mantissa_bits_total_ends`, coupling off).
// A buffer and its track stay two arguments: `count_block` is called so for each block of a frame, and would make a struct of both each time.
ghost use Rattle.std.specs.Prelude.{◌≡◌, ◌*◌, ◌^◌, ◌≤◌, ◌<◌, length};
ghost use Rattle.bits.specs.Parts.{joined, tab};
ghost use Rattle.mantissas.specs.Blocks.{part_baps, block_baps, blocks_answer, total_answer};
ghost use Rattle.mantissas.specs.Inner.{Below};
ghost use Rattle.mantissas.specs.Stream.{baps_fit, bit_count};
ghost use Rattle.mantissas.specs.Tally.{tally_of};
ghost use Rattle.sheet.specs.Layout.{buffer_length};
ghost use Rattle.sheet.specs.Settings.{channels};

use crate::code::check_baps;
use crate::count::{bits_of, weigh};
use bits::Refusal;
use sheet::Track;

// The baps of a channel's part below its end.
fn part_baps<'a>(bap: &'a [u8], track: &Track, block: usize, c: usize) -> &'a [u8]
    requires { (block < 6) × (c < channels track.now.settings) × (length bap.now ≡ buffer_length (channels track.now.settings)) }
    ensures baps { result.now ≡ part_baps track.now.settings bap.now block c }
    ensures upper_bound { length result.now ≤ 256 }
{
    let start = sheet::part_start(track.channels(), block, c);
    &bap[start..start + track.end_at(c)]
}

// Whether every bap of a block below the ends is at most 15.
fn check_block(bap: &[u8], track: &Track, block: usize) -> bool
    requires { (block < 6) × (length bap.now ≡ buffer_length (channels track.now.settings)) }
    ensures { result ≡ baps_fit (block_baps track.now.settings bap.now block) }
{
    let mut all = true;
    for c in 0..track.channels() {
        all &= check_baps(part_baps(bap, track, block, c));
    }
    all
}

// The same of all six blocks.
fn check_blocks(bap: &[u8], track: &Track) -> bool
    requires { length bap.now ≡ buffer_length (channels track.now.settings) }
    ensures { result ≡ baps_fit (joined 6 (block_baps track.now.settings bap.now)) }
{
    let mut all = true;
    for block in 0..6 {
        all &= check_block(bap, track, block);
    }
    all
}

// The tally of one channel's baps in a block.
pub fn tally_part(bap: &[u8], track: &Track, block: usize, c: usize) -> u64
    requires block_bound { (block < 6) × (c < channels track.now.settings) × (length bap.now ≡ buffer_length (channels track.now.settings)) }
    requires below { Below 16 (part_baps track.now.settings bap.now block c) }
    ensures { (result ≡ tally_of (part_baps track.now.settings bap.now block c)) × (result ≤ 2 ^ 38 * 256) }
{
    weigh(part_baps(bap, track, block, c), 0)
}

// The mantissa bits of a block: groups run on from channel to channel, so the tallies of them all are added up.
pub fn count_block(bap: &[u8], track: &Track, block: usize) -> u32
    requires block_bound { (block < 6) × (length bap.now ≡ buffer_length (channels track.now.settings)) }
    requires below { Below 16 (block_baps track.now.settings bap.now block) }
    ensures { result ≡ bit_count (block_baps track.now.settings bap.now block) }
{
    let mut tally: u64 = 0;
    for c in 0..track.channels() {
        tally += tally_part(bap, track, block, c);
    }
    bits_of(tally)
}

// Groups never cross blocks. A loop: of `std::array::from_fn` with a closure that holds the buffer, `from_fn-requires` stayed open.
fn count_blocks(bap: &[u8], track: &Track) -> [u32; 6]
    requires bap_len { length bap.now ≡ buffer_length (channels track.now.settings) }
    requires below { Below 16 (joined 6 (block_baps track.now.settings bap.now)) }
    ensures { result ≡ tab 6 (λ block. bit_count (block_baps track.now.settings bap.now block)) }
{
    let mut counts = [0u32; 6];
    for block in 0..6 {
        counts[block] = count_block(bap, track, block);
    }
    counts
}

// The refusals of the buffer, 10 and 5, or the counts.
fn bits_of_blocks(bap: &[u8], track: &Track) -> Result<[u32; 6], Refusal>
    ensures { result ≡ blocks_answer track.now.settings bap.now }
{
    if bap.len() != sheet::buffer_length(track.channels()) {
        return Err(Refusal::WrongLength);
    }
    if !check_blocks(bap, track) {
        return Err(Refusal::BadCode);
    }
    Ok(count_blocks(bap, track))
}

// The bits that each block's mantissas take under a sheet, whatever their codes are.
pub fn mantissa_bits_total_ends(sheet: &[u8], bap: &[u8]) -> Result<[u32; 6], Refusal>
    ensures { result ≡ total_answer sheet.now bap.now }
{
    bits_of_blocks(bap, &Track::from_bytes(sheet)?)
}
