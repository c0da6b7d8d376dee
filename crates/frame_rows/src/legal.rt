// The tests of causes 4 and 5 over a whole frame: exponents shaped or repeated, codes in range.
ghost use Rattle.std.specs.Prelude.{◌≡◌, ◌*◌, ◌<◌, ◌≤◌, length};
ghost use Rattle.frame.specs.Legal.{exps_legal, part_legal, row_legal};
ghost use Rattle.frame_rows.specs.Tests.{rows_coded};
ghost use Rattle.sheet.specs.Settings.{channels};

use elements::ExponentSet;
use sheet::Track;

// A channel's part of a block, after its part of the block before.
fn part_legal(set: ExponentSet, end: usize, old: &[u8], part: &[u8]) -> bool
    requires { (end ≤ length old.now) × (end ≤ length part.now) }
    ensures { result ≡ part_legal set end old.now part.now }
{
    match set {
        ExponentSet::Reuse => old[0..end] == part[0..end],
        ExponentSet::New(strategy) => shaping::is_shaped(&part[0..end], strategy.grpsize()),
    }
}

// The exponents of block b, after those of the block before.
fn row_legal(track: &Track, b: usize, old: &[u8], row: &[u8]) -> bool
    requires { (b < 6) × (length old.now ≡ 256 * channels track.now.settings) × (length row.now ≡ 256 * channels track.now.settings) }
    ensures { result ≡ row_legal track.now.settings b old.now row.now }
{
    let mut all = true;
    let n = track.channels();
    for c in 0..n {
        let set = track.set_at(b, c);
        let end = track.end_at(c);
        let a = 256 * c;
        let e = a + 256;
        all = all & part_legal(set, end, &old[a..e], &row[a..e]);
    }
    all
}

// Cause 4: the exponents of all six blocks, each after the block before; block 0, which is never reuse, has none.
#[tactic(auto, using(crate::specs::RowsLaws::row_inside))]
pub fn exps_legal(track: &Track, exps: &[u8]) -> bool
    requires { length exps.now ≡ 256 * channels track.now.settings * 6 }
    ensures { result ≡ exps_legal track.now.settings exps.now }
{
    let n = track.channels();
    let z = 256 * n;
    let mut all = true;
    for b in 0usize..6 {
        let before = b.saturating_sub(1);
        let p = z * before;
        let q = p + z;
        let a = z * b;
        let e = a + z;
        all = all & row_legal(track, b, &exps[p..q], &exps[a..e]);
    }
    all
}

// Cause 5: the codes of all six blocks under their bap; from each end on they are 0.
// By index: over `chunks_exact` and `zip` it stayed open which row a turn has, and that there are six turns.
#[tactic(auto, using(crate::specs::RowsLaws::row_inside))]
pub fn codes_legal(track: &Track, bap: &[u8], codes: &[u16]) -> bool
    requires { (length bap.now ≡ 256 * channels track.now.settings * 6) × (length codes.now ≡ 256 * channels track.now.settings * 6) }
    ensures { result ≡ rows_coded track.now.settings bap.now codes.now }
{
    let n = track.channels();
    let z = 256 * n;
    let mut all = true;
    for b in 0..6 {
        let a = z * b;
        let e = a + z;
        all = all & mantissas::code::check_codes(&bap[a..e], &codes[a..e]);
    }
    all
}
