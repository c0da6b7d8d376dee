// The last code of the bins of a frame's first part, and the first code past it.
ghost use Rattle.std.specs.Prelude.{◌≡◌, ◌<◌, ◌≤◌, length};

use crate::bins::LARGEST;
use bits::Refusal;
use std::io;

// How often the last code is taken, and how often the one past it is refused with 5.
#[derive(Clone, Copy)]
pub struct Borders {
    pub taken: u32,
    pub refused: u32,
}

// What is above 15 is no bap, and has no code above 0.
fn largest_of(bap: u8) -> u16 {
    LARGEST.get(usize::from(bap)).copied().unwrap_or(0)
}

// The answer of the call for a frame's copy.
fn answer_of(sheet: &[u8], exps: &[u8], codes: &[u16]) -> Result<(), Refusal>
    requires { length exps.now ≤ 4608 }
{
    let mut flags = [0u8; 4608];
    let mut levels = [0.0f32; 4608];
    let n = exps.len();
    reconstruct::reconstruct_body(sheet, exps, codes, &mut flags[0..n], &mut levels[0..n])
}

// The answer with another code at one place, where the own one is then put back.
fn answer_with(
    sheet: &[u8],
    exps: &[u8],
    codes: &mut [u16],
    at: usize,
    code: u16,
) -> Result<(), Refusal>
    requires { (length exps.now ≤ 4608) × (at < length codes.old) }
{
    let own = codes[at];
    codes[at] = code;
    let answer = answer_of(sheet, exps, codes);
    codes[at] = own;
    answer
}

fn is_bad_code(answer: Result<(), Refusal>) -> bool {
    answer == Err(Refusal::BadCode)
}

// At the first 37 bins.
pub(crate) fn borders_of(sheet: &[u8], exps: &[u8], bap: &[u8], codes: &mut [u16]) -> Borders
    requires { (length exps.now ≤ 4608) × (37 ≤ length bap.now) × (37 ≤ length codes.old) }
    ensures { length codes.new ≡ length codes.old }
{
    let mut taken = 0;
    let mut refused = 0;
    for i in 0..37 {
        let largest = largest_of(bap[i]);
        let past = largest.wrapping_add(1);
        let at_last = answer_with(sheet, exps, codes, i, largest);
        let beyond = answer_with(sheet, exps, codes, i, past);
        taken += u32::from(at_last.is_ok());
        refused += u32::from(is_bad_code(beyond));
    }
    Borders { taken, refused }
}

pub(crate) fn show_borders(rt: &impl Print, borders: Borders) -> io::Result<()> {
    print!(rt; ", {} {}", borders.taken, borders.refused)
}
