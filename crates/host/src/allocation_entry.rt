// The allocation of one channel of a sheet, with that channel's end.
ghost use Rattle.std.specs.Prelude.{◌≡◌, length};
ghost use Rattle.bits.specs.Answer.{number};
ghost use Rattle.host.specs.Entries.{allocation_answer, allocation_left};

use bits::{Refusal, number};

// The sheet, with whether it has the channel: 2 where it has no such channel. Then the call.
#[tactic(auto, unfolding(crate::specs::Entries::allocation_answer, crate::specs::Entries::allocation_left))]
fn compute_bap(sheet: &[u8], c: usize, exp: &[u8], bap: &mut [u8]) -> Result<(), Refusal>
    ensures value { result ≡ allocation_answer sheet.now c exp.now (length bap.old) }
    ensures bap_after { bap.new ≡ allocation_left sheet.now c exp.now bap.old }
{
    let common = sheet::common_of(sheet);
    sheet::check_beside(sheet, c < sheet::channels_of(common))?;
    let chosen = sheet::record_of(sheet, c);
    allocation::compute_bap(exp, usize::from(chosen.end), &common, &chosen.codes, bap)
}

#[unsafe(no_mangle)]
pub extern "C" fn ac3_compute_bap(sheet: &[u8], channel: u32, exp: &[u8], bap: &mut [u8]) -> u32
    ensures value { result ≡ number (allocation_answer sheet.now channel exp.now (length bap.old)) }
    ensures bap_after { bap.new ≡ allocation_left sheet.now channel exp.now bap.old }
{
    number(compute_bap(sheet, channel as usize, exp, bap))
}
