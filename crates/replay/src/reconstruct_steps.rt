// The listening copy: a bin alone and a frame. What a call is to leave in a buffer is the part `left_..`. An output holds a5 in every byte
// before the call; as the bits of a level that is a finite number, so a level that was left is compared like any other.
use crate::cases::Case;
use crate::compare::{same_entries, same_refusal};
use crate::parts::read_codes;
use reconstruct::Reconstructed;
use sheet::MOST_BUFFER;

// The bin in the form that a host's entry leaves it in: whether it has a level, and the level.
pub(crate) fn reconstruct_mantissa(case: Case, left_has: &[u8], left_level: &[u8]) -> bool {
    let answer = reconstruct::reconstruct_mantissa(case.first, case.second, case.third);
    let bin = answer.unwrap_or(Reconstructed::Silent);
    same_refusal(answer, case)
        && left_has == [bin.flag()].as_slice()
        && same_entries(&[bin.level()], left_level)
}

pub(crate) fn reconstruct_body(
    case: Case,
    sheet: &[u8],
    exps: &[u8],
    part: &[u8],
    left_has: &[u8],
    left_levels: &[u8],
) -> bool {
    let mut codes = [0u16; MOST_BUFFER];
    let mut has = [165u8; MOST_BUFFER];
    let mut levels = [shaping::coefficient_of(0xa5a5a5a5); MOST_BUFFER];
    let codes = &mut codes[..(part.len() / 2).min(MOST_BUFFER)];
    let has = &mut has[..(case.first as usize).min(MOST_BUFFER)];
    let levels = &mut levels[..(case.second as usize).min(MOST_BUFFER)];
    read_codes(part, codes);
    let answer = reconstruct::reconstruct_body(sheet, exps, codes, has, levels);
    same_refusal(answer, case) && &*has == left_has && same_entries(levels, left_levels)
}
