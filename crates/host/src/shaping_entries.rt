// Exponents: extraction, shaping, the number of groups, the choice of a strategy.
ghost use Rattle.std.specs.Prelude.{◌≡◌, ◌&&◌, [], ◌∷◌, ◌*◌, eqb, leb, length};
ghost use Rattle.bits.specs.Answer.{given, number};
ghost use Rattle.shaping.specs.Extract.{extracted};
ghost use Rattle.shaping.specs.Groups.{groups_answer};
ghost use Rattle.shaping.specs.Passes.{is_span, preprocess_check, preprocessed, quantise_check, quantised};
ghost use Rattle.shaping.specs.Strategies.{pick_answer};
ghost use Rattle.host.specs.Entries.{has_length, length_first, range_first, returned, strategy_code, select_number, select_rows};

use crate::results::{return_one, return_rows};
use bits::{Refusal, number};
use elements::Strategy;

#[tactic(auto, unfolding(crate::specs::Entries::length_first, crate::specs::Entries::returned))]
#[unsafe(no_mangle)]
pub extern "C" fn ac3_extract_exponent(x: f32, exponent: &mut [u8]) -> u32
    ensures value { result ≡ length_first (has_length 1 exponent.old) (extracted x) }
    ensures exponent_after { exponent.new ≡ returned 1 (given (extracted x) ∷ []) exponent.old }
{
    if exponent.len() != 1 {
        return Refusal::WrongLength.number();
    }
    let answer = shaping::extract_exponent(x);
    return_one(exponent, answer.unwrap_or(0));
    number(answer)
}

#[unsafe(no_mangle)]
pub extern "C" fn ac3_preprocess_d15(exp: &mut [u8]) -> u32
    ensures value { result ≡ number (preprocess_check exp.old) }
    ensures exp_after { exp.new ≡ preprocessed exp.old }
{
    number(shaping::preprocess_d15(exp))
}

#[unsafe(no_mangle)]
pub extern "C" fn ac3_quantise_exponents_to_grpsize(exp: &mut [u8], grpsize: usize) -> u32
    ensures value { result ≡ number (quantise_check grpsize exp.old) }
    ensures exp_after { exp.new ≡ quantised grpsize exp.old }
{
    number(shaping::quantise_exponents_to_grpsize(exp, grpsize))
}

// The call, its number of groups in the result slice.
fn return_groups(end: usize, grpsize: usize, groups: &mut [u32]) -> u32
    ensures value { result ≡ number (groups_answer end grpsize) }
    ensures groups_after { groups.new ≡ returned 1 (given (groups_answer end grpsize) ∷ []) groups.old }
{
    let answer = shaping::ngrps_for_strategy(end, grpsize);
    return_one(groups, answer.unwrap_or(0));
    number(answer)
}

// Of a call with its span written out, and an end that is known to be in its range, the compiler leaves a product and a shift: hence one for each span.
#[tactic(auto, unfolding(crate::specs::Entries::range_first, crate::specs::Entries::returned))]
#[unsafe(no_mangle)]
pub extern "C" fn ac3_ngrps_for_strategy(end: usize, grpsize: usize, groups: &mut [u32]) -> u32
    ensures value { result ≡ range_first (leb end 256 && is_span grpsize) (has_length 1 groups.old) (groups_answer end grpsize) }
    ensures groups_after { groups.new ≡ returned 1 (given (groups_answer end grpsize) ∷ []) groups.old }
{
    if groups.len() != 1 {
        if (end <= 256) & shaping::is_span(grpsize) {
            return Refusal::WrongLength.number();
        }
        return Refusal::OutOfRange.number();
    }
    if end <= 256 {
        if grpsize == 1 {
            return return_groups(end, 1, groups);
        }
        if grpsize == 2 {
            return return_groups(end, 2, groups);
        }
        if grpsize == 4 {
            return return_groups(end, 4, groups);
        }
    }
    return_groups(end, grpsize, groups)
}

#[tactic(auto, unfolding(crate::specs::Entries::range_first, crate::specs::Entries::returned))]
#[unsafe(no_mangle)]
pub extern "C" fn ac3_pick_strategy_for_block(exp: &[u8], end: usize, strategy: &mut [u8]) -> u32
    ensures value { result ≡ range_first (leb end 256) (has_length 1 strategy.old) (pick_answer exp.now end) }
    ensures strategy_after { strategy.new ≡ returned 1 (strategy_code (pick_answer exp.now end) ∷ []) strategy.old }
{
    if strategy.len() != 1 {
        if end <= 256 {
            return Refusal::WrongLength.number();
        }
        return Refusal::OutOfRange.number();
    }
    let answer = shaping::pick_strategy_for_block(exp, end);
    return_one(strategy, answer.map_or(0, Strategy::code));
    number(answer)
}

// Six entries for each channel; six times any length might not fit a number, so it is divided.
fn six_each(n: usize, ends: &[u16]) -> bool
    ensures { result ≡ eqb n (6 * length ends.now) }
{
    (n % 6 == 0) & (n / 6 == ends.len())
}

#[tactic(auto, unfolding(crate::specs::Entries::select_number, crate::specs::Entries::select_rows, crate::specs::Entries::range_first, crate::specs::Entries::returned))]
#[unsafe(no_mangle)]
pub extern "C" fn ac3_select_exp_strategies_per_end(
    exps: &[u8],
    ends: &[u16],
    strategies: &mut [u8],
) -> u32
    ensures value { result ≡ select_number exps.now ends.now (has_length (6 * length ends.now) strategies.old) }
    ensures strategies_after { strategies.new ≡ returned (6 * length ends.now) (select_rows exps.now ends.now) strategies.old }
{
    let answer = shaping::select_exp_strategies_per_end(exps, ends);
    if !six_each(strategies.len(), ends) {
        return match answer {
            Err(Refusal::OutOfRange) => Refusal::OutOfRange.number(),
            _ => Refusal::WrongLength.number(),
        };
    }
    match answer {
        Ok(table) => {
            return_rows(strategies, table, ends.len());
            0
        }
        Err(refusal) => {
            strategies.fill(0);
            refusal.number()
        }
    }
}
