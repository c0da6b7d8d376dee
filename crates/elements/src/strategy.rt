// The strategies of a new exponent set (A/52 5.4.3.22, 7.1.3). A block that reuses the exponents of the block before has none of them.
ghost use Rattle.std.specs.Prelude.{◌≡◌};
ghost use Rattle.elements.specs.Naming.{of_grpsize};
ghost use Rattle.elements.specs.Strategy.{code_of, grpsize};

use std::error::Error;
use std::fmt;

#[derive(Clone, Copy, Debug, PartialEq, Eq, Hash)]
pub enum Strategy {
    D15,
    D25,
    D45,
}

impl Strategy {
    /// How many bins share an exponent (A/52 7.1.3, `grpsize`).
    pub fn grpsize(self) -> usize
        ensures { result ≡ grpsize self }
    {
        match self {
            Strategy::D15 => 1,
            Strategy::D25 => 2,
            Strategy::D45 => 4,
        }
    }

    /// The code that stands for it (A/52 Table 7.4).
    pub fn code(self) -> u8
        ensures { result ≡ code_of self }
    {
        match self {
            Strategy::D15 => 1,
            Strategy::D25 => 2,
            Strategy::D45 => 3,
        }
    }
}

/// A number of bins that no strategy has.
#[derive(Clone, Copy, Debug, PartialEq, Eq, Hash)]
pub struct NoStrategy;

impl fmt::Display for NoStrategy {
    fn fmt<W: fmt::Write>(&self, f: &mut fmt::Formatter<W>) -> fmt::Result {
        f.write_str("no strategy shares an exponent by so many bins")
    }
}

impl Error for NoStrategy {}

/// By `grpsize`.
impl TryFrom<usize> for Strategy {
    type Error = NoStrategy;

    ghost try_from_gives = { λ bins r. r ≡ of_grpsize bins };

    fn try_from(bins: usize) -> Result<Self, NoStrategy> {
        match bins {
            1 => Ok(Strategy::D15),
            2 => Ok(Strategy::D25),
            4 => Ok(Strategy::D45),
            _ => Err(NoStrategy),
        }
    }
}
