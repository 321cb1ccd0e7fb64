ghost use Rattle.std.specs.Prelude.{Some, ◌≡◌};
ghost use Rattle.config.specs.Reasons.{number_of, text_of};

use std::error::Error;
use std::fmt;

/// Why a configuration cannot be used: of the reasons that apply, the first in this order.
#[derive(Clone, Copy, Debug, PartialEq, Eq, Hash)]
pub enum Reason {
    NoSize = 1,
    LineTooShort = 2,
    NoWays = 3,
    LineNotPowerOfTwo = 4,
    SetOverflows = 5,
    SetAboveSize = 6,
    SizeNotWholeSets = 7,
    SetsNotPowerOfTwo = 8,
    InclusionUnsupported = 9,
}

impl Reason {
    /// The number that a reason has wherever answers are numbers: 1 to 9.
    pub fn number(self) -> u8
        ensures { result ≡ number_of self }
    {
        self as u8
    }
}

impl fmt::Display for Reason {
    ghost output = { λ reason. Some (text_of reason) };

    fn fmt<W: fmt::Write>(&self, f: &mut fmt::Formatter<W>) -> fmt::Result {
        f.write_str(match self {
            Reason::NoSize => "size must be > 0",
            Reason::LineTooShort => "line size must be >= 4 B",
            Reason::NoWays => "associativity must be >= 1",
            Reason::LineNotPowerOfTwo => "line size is not a power of 2",
            Reason::SetOverflows => "associativity x line size overflows 64 bits",
            Reason::SetAboveSize => "associativity x line size > size: need >= 1 set",
            Reason::SizeNotWholeSets => "size is not divisible by associativity x line size",
            Reason::SetsNotPowerOfTwo => "the number of sets is not a power of 2",
            Reason::InclusionUnsupported => "inclusion must be NonInclusive",
        })
    }
}

impl Error for Reason {}
