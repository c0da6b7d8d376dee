// The exponents of a frame's six blocks: a row holds those of the block before, and a reuse block leaves its part.
ghost use Rattle.std.specs.Prelude.{◌≡◌, ◌*◌, ◌<◌, length};
ghost use Rattle.sheet.specs.Settings.{channels};
ghost use Rattle.frame_runs.specs.Runs.{exps_of};
ghost use Rattle.frame_runs.specs.Carried.{next_row};

use crate::part::next_part;
use crate::whole::Coefficients;
use sheet::MOST_ROW;

// Block b, over the block before.
fn next_row(coeffs: &Coefficients<'_>, b: usize, row: &mut [u8])
    requires { (b < 6) × (length row.old ≡ 256 * channels coeffs.now.track.now.settings) }
    ensures { row.new ≡ next_row coeffs.now.track.now.settings coeffs.now.values.now b row.old }
{
    let n = coeffs.track.channels();
    for c in 0..n {
        let a = 256 * c;
        let e = a + 256;
        next_part(coeffs, b, c, &mut row[a..e]);
    }
}

pub fn fill_exponents(coeffs: &Coefficients<'_>, exps: &mut [u8])
    requires { length exps.old ≡ 256 * channels coeffs.now.track.now.settings * 6 }
    ensures { exps.new ≡ exps_of coeffs.now.track.now.settings coeffs.now.values.now }
{
    let n = coeffs.track.channels();
    let z = 256 * n;
    let mut row = [0u8; MOST_ROW];
    for b in 0..6 {
        next_row(coeffs, b, &mut row[0..z]);
        let a = z * b;
        let e = a + z;
        exps[a..e].copy_from_slice(&row[0..z]);
    }
}
