// The delta segments (A/52 7.2.2.6), one behind the other.
ghost use Rattle.std.specs.Prelude.{◌≡◌};
ghost use Rattle.bits.specs.Parts.{tab};
ghost use Rattle.masking.specs.Held.{held_delta, held_deltas};

use elements::Segment;

// No band from this one on holds a bin.
const BANDS: usize = 50;

// A delta of 0, 512 up.
const NOTHING: u16 = 512;

// What a code adds, 512 up.
#[tactic(auto, unfolding(crate::specs::Held::held_delta))]
fn delta_of(ba: u8) -> u16
    ensures { result ≡ held_delta ba }
{
    let b = u16::from(ba);
    if b < 4 { 128 * b } else { 128 * b + 128 }
}

// What the segments add to each band, 512 up.
pub fn band_deltas(segments: &[Segment]) -> [u16; 50]
    ensures { result ≡ tab 50 (held_deltas segments.now) }
{
    let mut added = [NOTHING; BANDS];
    let mut at = 0;
    for segment in segments {
        let start = (at + usize::from(segment.offst)).min(BANDS);
        let stop = (start + usize::from(segment.len)).min(BANDS);
        added[start..stop].fill(delta_of(segment.ba));
        at = stop;
    }
    added
}
