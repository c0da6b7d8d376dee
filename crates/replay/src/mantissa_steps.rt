// The mantissa steps: the quantiser, the writer and the reader of a stream, the count of a frame.
// An output holds 165 in every byte before the call.
use crate::cases::Case;
use crate::compare::{same_answer, same_entries, same_refusal};
use crate::parts::read_codes;

// More than any call takes.
const MOST: usize = 2048;

pub(crate) fn quantise_mantissa(case: Case) -> bool {
    same_answer(
        quantiser::quantise_mantissa(
            shaping::coefficient_of(case.first),
            case.second,
            case.third,
        ).map(u32::from),
        case,
    )
}

pub(crate) fn write_mantissa_stream(case: Case, bap: &[u8], part: &[u8], left: &[u8]) -> bool {
    let mut codes = [0u16; MOST];
    let mut out = [165u8; 4096];
    let codes = &mut codes[..(part.len() / 2).min(MOST)];
    let out = &mut out[..(case.first as usize).min(4096)];
    read_codes(part, codes);
    same_answer(mantissas::write_mantissa_stream(out, bap, codes), case) && &*out == left
}

pub(crate) fn read_mantissa_stream(case: Case, input: &[u8], bap: &[u8], left: &[u8]) -> bool {
    let mut codes = [42405u16; MOST];
    let codes = &mut codes[..(case.first as usize).min(MOST)];
    same_answer(mantissas::read_mantissa_stream(input, bap, codes), case)
        && same_entries(codes, left)
}

pub(crate) fn mantissa_bits_total_ends(case: Case, sheet: &[u8], bap: &[u8], left: &[u8]) -> bool {
    let answer = mantissas::mantissa_bits_total_ends(sheet, bap);
    same_refusal(answer, case) && same_entries(&answer.unwrap_or([0; 6]), left)
}
