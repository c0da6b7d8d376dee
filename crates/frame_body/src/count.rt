// The twelve counts of a body (document 01, "The frame body"), before any bit is written.
ghost use Rattle.std.specs.Prelude.{◌≡◌, true, ◌*◌, ◌^◌, ◌≤◌, ◌<◌, length};
ghost use Rattle.sheet.specs.Ranges.{legal_end};
ghost use Rattle.sheet.specs.Settings.{channels};
ghost use Rattle.frame.specs.Body.{total};
ghost use Rattle.frame_body.specs.Counts.{set_count};
ghost use Rattle.frame_body.specs.Writing.{sets_count, counts_from, BapsFit};

use elements::ExponentSet;
use sheet::Track;

// A channel's exponents in a block: none where the block reuses the earlier ones, else 4 bits and at most 84 groups.
fn count_set(set: ExponentSet, end: usize) -> u32
    requires { legal_end end ≡ true }
    ensures { (result ≡ set_count set end) × (result ≤ 592) }
{
    match set {
        ExponentSet::Reuse => 0,
        ExponentSet::New(strategy) => {
            let groups = exponents::groups::group_count(end, strategy.grpsize());
            4 + 7 * (groups as u32)
        }
    }
}

// The new exponent sets of a block.
fn count_sets(track: &Track, b: usize) -> u32
    requires { b < 6 }
    ensures { result ≡ sets_count track.now.settings b }
{
    let n = track.channels();
    let mut count: u32 = 0;
    for c in 0..n {
        let set = track.set_at(b, c);
        let end = track.end_at(c);
        count += count_set(set, end);
    }
    count
}

// Six exponent counts, then six mantissa counts, from the baps alone: they do not depend on the codes.
pub fn count_body(track: &Track, bap: &[u8]) -> [u32; 12]
    requires { (length bap.now ≡ 256 * channels track.now.settings * 6) × BapsFit track.now.settings bap.now }
    ensures { result ≡ counts_from track.now.settings bap.now }
{
    let mut counts = [0u32; 12];
    for b in 0..6 {
        counts[b] = count_sets(track, b);
        counts[6 + b] = mantissas::count_block(bap, track, b);
    }
    counts
}

// The bits of the body: the sum of its counts. By the library's `sum` it stayed open that what is added fits.
pub fn body_size(counts: [u32; 12]) -> u32
    requires { total counts < 2 ^ 32 }
    ensures { result ≡ total counts }
{
    let mut size: u32 = 0;
    for count in counts {
        size += count;
    }
    size
}
