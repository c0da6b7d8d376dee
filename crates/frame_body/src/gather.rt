// The entries of a row below each end, one channel's behind the other's: bins from an end on have no bits, and so need not be passed.
ghost use Rattle.std.specs.Prelude.{◌≡◌, ◌*◌, length, take};
ghost use Rattle.sheet.specs.Settings.{channels};
ghost use Rattle.sheet.specs.Sizes.{most_row};
ghost use Rattle.frame_body.specs.Writing.{below_ends};

use sheet::Track;

// From the front of `to` on, which holds the most, as there is no heap; answers how many they are.
pub(crate) fn gather<T: Copy>(track: &Track, row: &[T], to: &mut [T]) -> usize
    requires { (length row.now ≡ 256 * channels track.now.settings) × (length to.old ≡ most_row) }
    ensures value { result ≡ length (below_ends track.now.settings row.now) }
    ensures to_after { take result to.new ≡ below_ends track.now.settings row.now }
{
    let n = track.channels();
    let mut at = 0;
    for c in 0..n {
        let end = track.end_at(c);
        let a = 256 * c;
        let e = a + end;
        let next = at + end;
        to[at..next].copy_from_slice(&row[a..e]);
        at = next;
    }
    at
}
