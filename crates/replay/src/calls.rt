// The public calls, in the order of the numbers that they have in the list.
ghost use Rattle.std.specs.Prelude.{◌<◌};

use std::error::Error;
use std::fmt;

#[derive(Clone, Copy, Debug, PartialEq, Eq)]
pub enum Call {
    CheckSheet,
    ExtractExponent,
    PreprocessD15,
    QuantiseExponentsToGrpsize,
    NgrpsForStrategy,
    WriteExponentsGrouped,
    ReadExponentsGrouped,
    PickStrategyForBlock,
    SelectExpStrategiesPerEnd,
    ComputeBap,
    QuantiseMantissa,
    WriteMantissaStream,
    ReadMantissaStream,
    MantissaBitsTotalEnds,
    EncodeBody,
    WriteBody,
    ReadBody,
    ReconstructMantissa,
    ReconstructBody,
}

// How many they are.
pub const CALLS: usize = 19;

// Each call, at its number.
pub const ALL: [Call; CALLS] = [
    Call::CheckSheet,
    Call::ExtractExponent,
    Call::PreprocessD15,
    Call::QuantiseExponentsToGrpsize,
    Call::NgrpsForStrategy,
    Call::WriteExponentsGrouped,
    Call::ReadExponentsGrouped,
    Call::PickStrategyForBlock,
    Call::SelectExpStrategiesPerEnd,
    Call::ComputeBap,
    Call::QuantiseMantissa,
    Call::WriteMantissaStream,
    Call::ReadMantissaStream,
    Call::MantissaBitsTotalEnds,
    Call::EncodeBody,
    Call::WriteBody,
    Call::ReadBody,
    Call::ReconstructMantissa,
    Call::ReconstructBody,
];

impl Call {
    // Its number, by which its tally is found.
    pub(crate) fn index(self) -> usize
        ensures { result < 19 }
    {
        self as usize
    }

    fn name(self) -> &'static str {
        match self {
            Call::CheckSheet => "check_sheet",
            Call::ExtractExponent => "extract_exponent",
            Call::PreprocessD15 => "preprocess_d15",
            Call::QuantiseExponentsToGrpsize => "quantise_exponents_to_grpsize",
            Call::NgrpsForStrategy => "ngrps_for_strategy",
            Call::WriteExponentsGrouped => "write_exponents_grouped",
            Call::ReadExponentsGrouped => "read_exponents_grouped",
            Call::PickStrategyForBlock => "pick_strategy_for_block",
            Call::SelectExpStrategiesPerEnd => "select_exp_strategies_per_end",
            Call::ComputeBap => "compute_bap",
            Call::QuantiseMantissa => "quantise_mantissa",
            Call::WriteMantissaStream => "write_mantissa_stream",
            Call::ReadMantissaStream => "read_mantissa_stream",
            Call::MantissaBitsTotalEnds => "mantissa_bits_total_ends",
            Call::EncodeBody => "encode_body",
            Call::WriteBody => "write_body",
            Call::ReadBody => "read_body",
            Call::ReconstructMantissa => "reconstruct_mantissa",
            Call::ReconstructBody => "reconstruct_body",
        }
    }
}

// By its name, as in the lines that are printed.
impl fmt::Display for Call {
    fn fmt<W: fmt::Write>(&self, f: &mut fmt::Formatter<W>) -> fmt::Result {
        f.write_str(self.name())
    }
}

// A number that no call has.
#[derive(Clone, Copy, Debug, PartialEq, Eq)]
pub struct NoCall(pub u32);

impl fmt::Display for NoCall {
    fn fmt<W: fmt::Write>(&self, f: &mut fmt::Formatter<W>) -> fmt::Result {
        write!(f, "no call has the number {}", self.0)
    }
}

impl Error for NoCall {}

impl TryFrom<u32> for Call {
    type Error = NoCall;

    fn try_from(number: u32) -> Result<Self, NoCall> {
        ALL.get(number as usize).copied().ok_or(NoCall(number))
    }
}
