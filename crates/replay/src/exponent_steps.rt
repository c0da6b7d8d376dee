// The exponent steps: extraction, shaping, groups, the writer and the reader, strategies.
// What a call is to leave in a buffer is the part `left`. An output holds 165 in every entry before the call.
use crate::cases::Case;
use crate::compare::{same_answer, same_refusal};
use crate::parts::read_codes;
use bits::Refusal;
use elements::ExponentSet;

// More than any call takes.
const MOST: usize = 512;

pub(crate) fn extract_exponent(case: Case) -> bool {
    same_answer(
        shaping::extract_exponent(shaping::coefficient_of(case.first)).map(u32::from),
        case,
    )
}

// A step that changes exponents where they stand.
fn same_in_place<F: FnOnce(&mut [u8]) -> Result<(), Refusal>>(
    case: Case,
    exp: &[u8],
    left: &[u8],
    step: F,
) -> bool
    requires { F.IsAlwaysCallable step }
{
    let mut buffer = [0u8; MOST];
    if MOST < exp.len() {
        return false;
    }
    let buffer = &mut buffer[..exp.len()];
    buffer.copy_from_slice(exp);
    same_refusal(step(buffer), case) && &*buffer == left
}

pub(crate) fn preprocess_d15(case: Case, exp: &[u8], left: &[u8]) -> bool {
    same_in_place(case, exp, left, |buffer| shaping::preprocess_d15(buffer))
}

pub(crate) fn quantise_exponents_to_grpsize(case: Case, exp: &[u8], left: &[u8]) -> bool {
    same_in_place(
        case,
        exp,
        left,
        |buffer| shaping::quantise_exponents_to_grpsize(buffer, case.first as usize),
    )
}

pub(crate) fn ngrps_for_strategy(case: Case) -> bool {
    same_answer(
        shaping::ngrps_for_strategy(case.first as usize, case.second as usize),
        case,
    )
}

pub(crate) fn write_exponents_grouped(case: Case, exp: &[u8], left: &[u8]) -> bool {
    let mut out = [165u8; 1024];
    let out = &mut out[..(case.third as usize).min(1024)];
    let answer = exponents::write_exponents_grouped(
        out,
        exp,
        case.first as usize,
        case.second as usize,
    );
    same_answer(answer, case) && &*out == left
}

pub(crate) fn read_exponents_grouped(case: Case, input: &[u8], left: &[u8]) -> bool {
    let mut exp = [165u8; MOST];
    let exp = &mut exp[..(case.third as usize).min(MOST)];
    let answer = exponents::read_exponents_grouped(
        input,
        case.first as usize,
        case.second as usize,
        exp,
    );
    same_answer(answer, case) && &*exp == left
}

pub(crate) fn pick_strategy_for_block(case: Case, exp: &[u8]) -> bool {
    same_answer(
        shaping::pick_strategy_for_block(exp, case.first as usize).map(|strategy| u32::from(
            strategy.code(),
        )),
        case,
    )
}

// Six channels by six blocks.
fn same_rows(rows: [[ExponentSet; 6]; 6], left: &[u8]) -> bool {
    left.len() == 36
        && rows.iter().zip(left.chunks_exact(6)).all(|(row, left)| row
            .map(ExponentSet::code)
            .as_slice()
            == left)
}

pub(crate) fn select_exp_strategies_per_end(
    case: Case,
    part: &[u8],
    exps: &[u8],
    left: &[u8],
) -> bool {
    let mut ends = [0u16; 16];
    let ends = &mut ends[..(part.len() / 2).min(16)];
    read_codes(part, ends);
    let answer = shaping::select_exp_strategies_per_end(exps, ends);
    same_refusal(answer, case) && same_rows(answer.unwrap_or([[ExponentSet::Reuse; 6]; 6]), left)
}
