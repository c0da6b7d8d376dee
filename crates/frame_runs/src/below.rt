// The entries of a channel's block below its end.
ghost use Rattle.std.specs.Prelude.{◌≡◌, ◌*◌, ◌<◌, length};
ghost use Rattle.sheet.specs.Settings.{channels, end_at};
ghost use Rattle.frame.specs.Layout.{below_end};

use sheet::Track;

pub fn below_end<'a, T>(track: &Track, buffer: &'a [T], b: usize, c: usize) -> &'a [T]
    requires { (b < 6) × (c < channels track.now.settings) × (length buffer.now ≡ 256 * channels track.now.settings * 6) }
    ensures value { result.now ≡ below_end track.now.settings b c buffer.now }
    ensures len { length result.now ≡ end_at track.now.settings c }
{
    let n = track.channels();
    let a = sheet::part_start(n, b, c);
    let e = a + track.end_at(c);
    &buffer[a..e]
}
