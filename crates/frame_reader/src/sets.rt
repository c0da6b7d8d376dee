// The exponents of a block, read in place over those of the block before.
ghost use Rattle.std.specs.Prelude.{◌≡◌, true, ◌+◌, ◌*◌, ◌^◌, ◌≤◌, ◌<◌, length, MatchResult};
ghost use Rattle.bits.specs.Field.{bits_of};
ghost use Rattle.bits.specs.Read.{from, Came};
ghost use Rattle.sheet.specs.Ranges.{legal_end};
ghost use Rattle.sheet.specs.Settings.{channels};
ghost use Rattle.frame.specs.Reader.{read_part, read_sets};
ghost use Rattle.frame_reader.specs.Reading.{most_set, most_sets};

use bits::Fault;
use elements::ExponentSet;
use sheet::Track;

// A channel's part: left where its block is reuse, read where it has a new set.
fn get_part(
    input: &[u8],
    pos: usize,
    set: ExponentSet,
    end: usize,
    part: &mut [u8],
) -> Result<usize, Fault>
    requires pos_bound { (pos ≤ 8 * length input.now) × (pos < 2 ^ 32) }
    requires end_value { (legal_end end ≡ true) × (end ≤ 256) × (length part.old ≡ 256) }
    ensures came { Came (read_part set end part.old (from pos (bits_of input.now))) part.new (bits_of input.now) pos result }
    ensures near { MatchResult result (λ p. p ≤ pos + most_set) (λ f. f.pos ≤ pos + most_set) }
{
    match set {
        ExponentSet::Reuse => Ok(pos),
        ExponentSet::New(strategy) => exponents::get_exponents(input, pos, end, strategy, part),
    }
}

// The row of block b.
pub(crate) fn get_sets(
    track: &Track,
    b: usize,
    input: &[u8],
    pos: usize,
    row: &mut [u8],
) -> Result<usize, Fault>
    requires b_bound { (b < 6) × (length row.old ≡ 256 * channels track.now.settings) }
    requires pos_bound { (pos ≤ 8 * length input.now) × (pos < 2 ^ 31) }
    ensures came { Came (read_sets track.now.settings b row.old (from pos (bits_of input.now))) row.new (bits_of input.now) pos result }
    ensures near { MatchResult result (λ p. p ≤ pos + most_sets) (λ f. f.pos ≤ pos + most_sets) }
{
    let n = track.channels();
    let mut at = pos;
    for c in 0..n {
        let a = 256 * c;
        let e = a + 256;
        at = get_part(
            input,
            at,
            track.set_at(b, c),
            track.end_at(c),
            &mut row[a..e],
        )?;
    }
    Ok(at)
}
