// The listening copy: of a bin, and of a frame.
ghost use Rattle.std.specs.Prelude.{◌≡◌, [], ◌∷◌, length};
ghost use Rattle.std.specs.Result.{result_unwrap_or};
ghost use Rattle.bits.specs.Answer.{number};
ghost use Rattle.quantiser.specs.Scale.{zero32};
ghost use Rattle.sheet.specs.Settings.{settings_of};
ghost use Rattle.reconstruct.specs.Bin.{flag_of, level_of, bin_answer};
ghost use Rattle.reconstruct.specs.Copy.{flags_of, levels_of, copy_answer, copy_left};
ghost use Rattle.reconstruct.specs.declared.mantissa.Reconstructed.TheVariants.{Silent};
ghost use Rattle.host.specs.Entries.{length_first, returned, if_called, one_each};

use crate::results::return_one;
use bits::{Refusal, number};
use reconstruct::Reconstructed;

#[tactic(auto, unfolding(crate::specs::Entries::length_first, crate::specs::Entries::one_each, crate::specs::Entries::returned, crate::specs::Entries::if_called))]
#[unsafe(no_mangle)]
pub extern "C" fn ac3_reconstruct_mantissa(
    exponent: u32,
    bap: u32,
    code: u32,
    has_level: &mut [u8],
    level: &mut [f32],
) -> u32
    ensures value { result ≡ length_first (one_each has_level.old level.old) (bin_answer exponent bap code) }
    ensures has_level_after { has_level.new ≡ returned 1 (if_called (one_each has_level.old level.old) (flag_of (result_unwrap_or (bin_answer exponent bap code) Silent) ∷ []) (0 ∷ [])) has_level.old }
    ensures level_after { level.new ≡ returned 1 (if_called (one_each has_level.old level.old) (level_of (result_unwrap_or (bin_answer exponent bap code) Silent) ∷ []) (zero32 ∷ [])) level.old }
{
    if has_level.len() != 1 {
        return_one(level, 0.0);
        return Refusal::WrongLength.number();
    }
    if level.len() != 1 {
        return_one(has_level, 0);
        return Refusal::WrongLength.number();
    }
    let answer = reconstruct::reconstruct_mantissa(exponent, bap, code);
    let bin = answer.unwrap_or(Reconstructed::Silent);
    return_one(has_level, bin.flag());
    return_one(level, bin.level());
    number(answer)
}

#[unsafe(no_mangle)]
pub extern "C" fn ac3_reconstruct_body(
    sheet: &[u8],
    exps: &[u8],
    codes: &[u16],
    has_level: &mut [u8],
    levels: &mut [f32],
) -> u32
    ensures value { result ≡ number (copy_answer sheet.now exps.now codes.now (length has_level.old) (length levels.old)) }
    ensures has_level_after { has_level.new ≡ copy_left (copy_answer sheet.now exps.now codes.now (length has_level.old) (length levels.old)) (flags_of (settings_of sheet.now) exps.now codes.now) has_level.old }
    ensures levels_after { levels.new ≡ copy_left (copy_answer sheet.now exps.now codes.now (length has_level.old) (length levels.old)) (levels_of (settings_of sheet.now) exps.now codes.now) levels.old }
{
    number(reconstruct::reconstruct_body(sheet, exps, codes, has_level, levels))
}
