// Whether every coefficient below its channel's end is finite (document 01, cause 3).
ghost use Rattle.std.specs.Prelude.{◌≡◌, ◌*◌, ◌<◌, length};
ghost use Rattle.sheet.specs.Settings.{channels};
ghost use Rattle.frame_runs.specs.Finite.{finite_part, finite_row, all_finite};

use crate::below::below_end;
use sheet::Track;

fn part_finite(part: &[f32]) -> bool
    ensures { result ≡ finite_part part.now }
{
    part.iter().all(|&x| shaping::is_finite(x))
}

fn row_finite(track: &Track, coeffs: &[f32], b: usize) -> bool
    requires { (b < 6) × (length coeffs.now ≡ 256 * channels track.now.settings * 6) }
    ensures { result ≡ finite_row track.now.settings coeffs.now b }
{
    let mut all = true;
    for c in 0..track.channels() {
        all = all & part_finite(below_end(track, coeffs, b, c));
    }
    all
}

pub fn all_finite(track: &Track, coeffs: &[f32]) -> bool
    requires { length coeffs.now ≡ 256 * channels track.now.settings * 6 }
    ensures { result ≡ all_finite track.now.settings coeffs.now }
{
    let mut all = true;
    for b in 0..6 {
        all = all & row_finite(track, coeffs, b);
    }
    all
}
