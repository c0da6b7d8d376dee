// The frame's three calls. What a call is to leave in a buffer is the part `left_..`. An output holds 165 in every byte before the call.
use crate::cases::Case;
use crate::compare::{same_entries, same_frame_answer};
use crate::parts::{read_codes, read_coefficients};
use bits::Refusal;
use frame::BodyBits;
use sheet::MOST_BUFFER;

// More than the list's bodies take.
const MOST_BODY: usize = 4096;

// The refusal and the bits of the body, and the twelve counts where the list has them.
fn same_body_bits(answer: Result<BodyBits, Refusal>, case: Case, counts: &[u8]) -> bool {
    let body = answer.unwrap_or(BodyBits {
        counts: [0; 12],
        bits: 0,
    });
    same_frame_answer(answer, case) && (counts.is_empty() || same_entries(&body.counts, counts))
}

pub(crate) fn encode_body(
    case: Case,
    sheet: &[u8],
    part: &[u8],
    left_exps: &[u8],
    left_bap: &[u8],
    left_codes: &[u8],
    left_body: &[u8],
    counts: &[u8],
) -> bool {
    let mut coeffs = [0.0f32; MOST_BUFFER];
    let mut exps = [165u8; MOST_BUFFER];
    let mut bap = [165u8; MOST_BUFFER];
    let mut codes = [42405u16; MOST_BUFFER];
    let mut body = [165u8; MOST_BODY];
    let coeffs = &mut coeffs[..(part.len() / 4).min(MOST_BUFFER)];
    let exps = &mut exps[..(case.first as usize).min(MOST_BUFFER)];
    let bap = &mut bap[..(case.second as usize).min(MOST_BUFFER)];
    let codes = &mut codes[..(case.third as usize).min(MOST_BUFFER)];
    let body = &mut body[..(case.fourth as usize).min(MOST_BODY)];
    read_coefficients(part, coeffs);
    let answer = frame_encoder::encode_body(sheet, coeffs, exps, bap, codes, body);
    same_body_bits(answer, case, counts)
        && &*exps == left_exps
        && &*bap == left_bap
        && same_entries(codes, left_codes)
        && &*body == left_body
}

pub(crate) fn write_body(
    case: Case,
    sheet: &[u8],
    exps: &[u8],
    part: &[u8],
    left_body: &[u8],
    counts: &[u8],
) -> bool {
    let mut codes = [0u16; MOST_BUFFER];
    let mut body = [165u8; MOST_BODY];
    let codes = &mut codes[..(part.len() / 2).min(MOST_BUFFER)];
    let body = &mut body[..(case.first as usize).min(MOST_BODY)];
    read_codes(part, codes);
    let answer = frame_writer::write_body(sheet, exps, codes, body);
    same_body_bits(answer, case, counts) && &*body == left_body
}

// The bap buffer is compared where the list has it.
pub(crate) fn read_body(
    case: Case,
    sheet: &[u8],
    input: &[u8],
    left_exps: &[u8],
    left_bap: &[u8],
    left_codes: &[u8],
    counts: &[u8],
) -> bool {
    let mut exps = [165u8; MOST_BUFFER];
    let mut bap = [165u8; MOST_BUFFER];
    let mut codes = [42405u16; MOST_BUFFER];
    let exps = &mut exps[..(case.first as usize).min(MOST_BUFFER)];
    let bap = &mut bap[..(case.second as usize).min(MOST_BUFFER)];
    let codes = &mut codes[..(case.third as usize).min(MOST_BUFFER)];
    let answer = frame_reader::read_body(sheet, input, exps, bap, codes);
    same_body_bits(answer, case, counts)
        && &*exps == left_exps
        && (left_bap.is_empty() || &*bap == left_bap)
        && same_entries(codes, left_codes)
}
