// What is met in the copy of a frame: each bin beside that bin alone.
ghost use Rattle.std.specs.Prelude.{◌≡◌, length};

use crate::show;
use reconstruct::reconstruct_mantissa;
use std::io;

// How many bins differ from the bin alone, and how many entries from an end on are not 0; how many bins are silent, and have a level.
#[derive(Clone, Copy)]
pub struct Met {
    pub differing: u32,
    pub beyond: u32,
    pub silent: u32,
    pub levels: u32,
}

// Whether an entry is a bin below its channel's end. There are three channels, or one, whose end then stands there three times.
pub(crate) fn is_below(ends: [usize; 3], i: usize) -> bool {
    i % 256 < ends[i / 256 % 3]
}

// Whether an entry of the copy is not what its exponent, bap and code give alone.
fn differs(exponent: u8, bap: u8, code: u16, flag: u8, level: f32) -> bool {
    match reconstruct_mantissa(u32::from(exponent), u32::from(bap), u32::from(code)) {
        Ok(bin) => {
            (flag != bin.flag()) | (show::pattern_of(level) != show::pattern_of(bin.level()))
        }
        Err(_) => true,
    }
}

// One more entry was looked at. `wrapping_add`: a `+` would ask for a bound of each count through both functions.
fn with_entry(
    met: Met,
    below: bool,
    exponent: u8,
    bap: u8,
    code: u16,
    flag: u8,
    level: f32,
) -> Met {
    let differing = differs(exponent, bap, code, flag, level);
    let some = (flag != 0) | (show::pattern_of(level) != 0);
    Met {
        differing: met.differing.wrapping_add(u32::from(below & differing)),
        beyond: met.beyond.wrapping_add(u32::from(!below & some)),
        silent: met.silent.wrapping_add(u32::from(below & (flag == 0))),
        levels: met.levels.wrapping_add(u32::from(below & (flag == 1))),
    }
}

pub(crate) fn met_in(
    ends: [usize; 3],
    exps: &[u8],
    bap: &[u8],
    codes: &[u16],
    flags: &[u8],
    levels: &[f32],
) -> Met
    requires bap_len { (length bap.now ≡ length exps.now) × (length codes.now ≡ length exps.now) }
    requires flags_len { (length flags.now ≡ length exps.now) × (length levels.now ≡ length exps.now) }
{
    let mut met = Met {
        differing: 0,
        beyond: 0,
        silent: 0,
        levels: 0,
    };
    for i in 0..exps.len() {
        let below = is_below(ends, i);
        met = with_entry(met, below, exps[i], bap[i], codes[i], flags[i], levels[i]);
    }
    met
}

// Whether bins of both kinds were met, so that the copy was no empty one.
pub(crate) fn show_met(rt: &impl Print, met: Met) -> io::Result<()> {
    print!(rt; ", {} {},", met.differing, met.beyond)?;
    print!(rt;
        " {} {}",
        u8::from(met.silent > 0),
        u8::from(met.levels > 0)
    )
}
