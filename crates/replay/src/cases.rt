// A case of the list: fourteen numbers, of which seven are the lengths of the parts behind them, then the parts.
ghost use Rattle.std.specs.Prelude.{◌*◌, ◌<◌, ◌≤◌, length};

use crate::calls::Call;
use crate::parts::number_at;
use crate::{
    allocation_steps, exponent_steps, frame_steps, mantissa_steps, reconstruct_steps, sheet_steps,
};

// Up to four arguments (an end, a span, a length, a pattern), then what is expected: the refusal and the value.
#[derive(Clone, Copy)]
pub struct Case {
    pub first: u32,
    pub second: u32,
    pub third: u32,
    pub fourth: u32,
    pub refusal: u32,
    pub value: u32,
}

// What came of a record of the list.
#[derive(Clone, Copy)]
pub enum Outcome {
    Replayed { call: Call, same: bool },
    Ended,
    Damaged,
}

// The bytes of the fourteen numbers.
const NUMBERS: usize = 56;

fn case_of(bytes: &[u8]) -> Case
    requires { 56 ≤ length bytes.now }
{
    Case {
        first: number_at(bytes, 32),
        second: number_at(bytes, 36),
        third: number_at(bytes, 40),
        fourth: number_at(bytes, 44),
        refusal: number_at(bytes, 48),
        value: number_at(bytes, 52),
    }
}

// The length of the part with this number, from 1 on.
fn part_length(bytes: &[u8], part: usize) -> usize
    requires { (56 ≤ length bytes.now) × (part ≤ 7) }
    ensures { result < 4294967296 }
{
    number_at(bytes, 4 * part) as usize
}

// The case is taken apart and replayed.
pub(crate) fn replay(bytes: &[u8]) -> Outcome {
    if bytes.len() < NUMBERS {
        return Outcome::Damaged;
    }
    let Ok(call) = Call::try_from(number_at(bytes, 0)) else {
        return Outcome::Damaged;
    };
    let a = NUMBERS + part_length(bytes, 1);
    let b = a + part_length(bytes, 2);
    let c = b + part_length(bytes, 3);
    let d = c + part_length(bytes, 4);
    let e = d + part_length(bytes, 5);
    let f = e + part_length(bytes, 6);
    let g = f + part_length(bytes, 7);
    if bytes.len() != g {
        return Outcome::Damaged;
    }
    let same = is_same(
        call,
        case_of(bytes),
        &bytes[NUMBERS..a],
        &bytes[a..b],
        &bytes[b..c],
        &bytes[c..d],
        &bytes[d..e],
        &bytes[e..f],
        &bytes[f..g],
    );
    Outcome::Replayed { call, same }
}

// Whether the call gives what is expected. A `match` and no table of closures: the list names its call by a number, and the steps differ in
// what they take. The parts stay arguments: each call takes them as something else, and a struct would name them alike.
fn is_same(
    call: Call,
    case: Case,
    a: &[u8],
    b: &[u8],
    c: &[u8],
    d: &[u8],
    e: &[u8],
    f: &[u8],
    g: &[u8],
) -> bool {
    match call {
        Call::CheckSheet => sheet_steps::check_sheet(case, a),
        Call::ExtractExponent => exponent_steps::extract_exponent(case),
        Call::PreprocessD15 => exponent_steps::preprocess_d15(case, a, b),
        Call::QuantiseExponentsToGrpsize => exponent_steps::quantise_exponents_to_grpsize(
            case, a, b,
        ),
        Call::NgrpsForStrategy => exponent_steps::ngrps_for_strategy(case),
        Call::WriteExponentsGrouped => exponent_steps::write_exponents_grouped(case, a, b),
        Call::ReadExponentsGrouped => exponent_steps::read_exponents_grouped(case, a, b),
        Call::PickStrategyForBlock => exponent_steps::pick_strategy_for_block(case, a),
        Call::SelectExpStrategiesPerEnd => exponent_steps::select_exp_strategies_per_end(
            case, a, b, c,
        ),
        Call::ComputeBap => allocation_steps::compute_bap(case, a, b, c, d),
        Call::QuantiseMantissa => mantissa_steps::quantise_mantissa(case),
        Call::WriteMantissaStream => mantissa_steps::write_mantissa_stream(case, a, b, c),
        Call::ReadMantissaStream => mantissa_steps::read_mantissa_stream(case, a, b, c),
        Call::MantissaBitsTotalEnds => mantissa_steps::mantissa_bits_total_ends(case, a, b, c),
        Call::EncodeBody => frame_steps::encode_body(case, a, b, c, d, e, f, g),
        Call::WriteBody => frame_steps::write_body(case, a, b, c, d, e),
        Call::ReadBody => frame_steps::read_body(case, a, b, c, d, e, f),
        Call::ReconstructMantissa => reconstruct_steps::reconstruct_mantissa(case, a, b),
        Call::ReconstructBody => reconstruct_steps::reconstruct_body(case, a, b, c, d, e),
    }
}
