// The exponents of a block (A/52 5.4.3.22): those of the block before, or a new set.
ghost use Rattle.std.specs.Prelude.{◌≡◌};
ghost use Rattle.elements.specs.Strategy.{code_of_set};

use crate::strategy::Strategy;

/// Document 01 names this form, an enum `Reuse` or `New(span)` in a struct for each block: so it is no `Option`.
#[derive(Clone, Copy, Debug, PartialEq, Eq, Hash)]
pub enum ExponentSet {
    Reuse,
    New(Strategy),
}

impl ExponentSet {
    /// The code that stands for it (A/52 Table 7.4).
    pub fn code(self) -> u8
        ensures { result ≡ code_of_set self }
    {
        match self {
            ExponentSet::Reuse => 0,
            ExponentSet::New(strategy) => strategy.code(),
        }
    }
}

#[derive(Clone, Copy, Debug, PartialEq, Eq, Hash)]
pub struct BlockSet {
    pub set: ExponentSet,
}
