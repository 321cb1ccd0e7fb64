ghost use Rattle.std.specs.Prelude.{◌≡◌};
ghost use Rattle.level.specs.Refusal.{number_of, place_of};

use config::Reason;

/// Why a call on a level is refused.
#[derive(Clone, Copy, Debug, PartialEq, Eq, Hash)]
pub enum Refusal {
    /// 1 to 9. The configuration cannot be used: the level is one that passes everything on to RAM.
    Unusable(Reason),
    /// 20. The configuration is valid, but beyond the limits.
    BeyondLimits,
    /// 21. The line buffer has not the level's size.
    LinesMisfit,
    /// 22. RAM is too long.
    RamTooLong,
    /// 23. A byte outside RAM is needed: its address.
    Outside(u32),
    /// 24. The level is not well formed.
    NotWellFormed,
}

impl Refusal {
    /// The number that a refusal has wherever answers are numbers.
    pub fn number(self) -> u8
        ensures { result ≡ number_of self }
    {
        match self {
            Refusal::Unusable(reason) => reason.number(),
            Refusal::BeyondLimits => 20,
            Refusal::LinesMisfit => 21,
            Refusal::RamTooLong => 22,
            Refusal::Outside(_) => 23,
            Refusal::NotWellFormed => 24,
        }
    }

    /// The address that is told, and 0 where none is.
    pub fn place(self) -> u32
        ensures { result ≡ place_of self }
    {
        match self {
            Refusal::Outside(addr) => addr,
            _ => 0,
        }
    }
}
