// Codes without what stands from an end on, which is ignored (document 01, "The track sheet").
ghost use Rattle.std.specs.Prelude.{◌≡◌, ◌*◌, ◌≤◌, length};
ghost use Rattle.frame.specs.Layout.{clean, clean_row, cleaned};
ghost use Rattle.sheet.specs.Settings.{channels};

use sheet::Track;

// By index: of `copy_from_slice`, inlined, a call of `memmove` would be left, which nothing else in the archive asks for.
fn copy_codes(from: &[u16], to: &mut [u16])
    requires { length to.old ≡ length from.now }
    ensures { to.new ≡ from.now }
{
    for i in 0..from.len() {
        to[i] = from[i];
    }
}

// A channel's codes below end, and 0 from there on.
fn clean_part(codes: &[u16], end: usize, to: &mut [u16])
    requires { (end ≤ 256) × (length codes.now ≡ 256) × (length to.old ≡ 256) }
    ensures { to.new ≡ clean end codes.now }
{
    copy_codes(&codes[0..end], &mut to[0..end]);
    to[end..256].fill(0);
}

// Those of a block.
fn clean_row(track: &Track, codes: &[u16], to: &mut [u16])
    requires { (length codes.now ≡ 256 * channels track.now.settings) × (length to.old ≡ 256 * channels track.now.settings) }
    ensures { to.new ≡ clean_row track.now.settings codes.now }
{
    let n = track.channels();
    for c in 0..n {
        let end = track.end_at(c);
        let a = 256 * c;
        let e = a + 256;
        clean_part(&codes[a..e], end, &mut to[a..e]);
    }
}

// Those of all six blocks. By index: over `chunks_exact` it stayed open which row a turn has (tried in `codes_legal`).
#[tactic(auto, using(crate::specs::RowsLaws::row_inside))]
pub fn clean_codes(track: &Track, codes: &[u16], to: &mut [u16])
    requires { (length codes.now ≡ 256 * channels track.now.settings * 6) × (length to.old ≡ 256 * channels track.now.settings * 6) }
    ensures { to.new ≡ cleaned track.now.settings codes.now }
{
    let n = track.channels();
    let z = 256 * n;
    for b in 0..6 {
        let a = z * b;
        let e = a + z;
        clean_row(track, &codes[a..e], &mut to[a..e]);
    }
}
