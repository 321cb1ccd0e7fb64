ghost use Rattle.std.specs.Prelude.{Some};
ghost use Rattle.config.specs.Numbers.{clock, write_back, no_write_allocate};
ghost use Rattle.config.specs.Policies.{Names, unknown_text, replacement_number, write_number, write_alloc_number};

use std::error::Error;
use std::fmt;

/// Which line a full set gives up.
#[derive(Clone, Copy, Debug, PartialEq, Eq, Hash)]
pub enum ReplacementPolicy {
    Lru,
    Mru,
    Fifo,
    Random,
    Lfu,
    Clock,
}

/// When a write reaches RAM.
#[derive(Clone, Copy, Debug, PartialEq, Eq, Hash)]
pub enum WritePolicy {
    WriteThrough,
    WriteBack,
}

/// Whether a write that misses brings its line in.
#[derive(Clone, Copy, Debug, PartialEq, Eq, Hash)]
pub enum WriteAllocPolicy {
    WriteAllocate,
    NoWriteAllocate,
}

/// A number that names no policy of its kind.
#[derive(Clone, Copy, Debug, PartialEq, Eq, Hash)]
pub struct UnknownPolicy(pub u8);

impl fmt::Display for UnknownPolicy {
    ghost output = { λ unknown. Some (unknown_text unknown) };

    fn fmt<W: fmt::Write>(&self, f: &mut fmt::Formatter<W>) -> fmt::Result {
        write!(f, "no policy has number {}", self.0)
    }
}

impl Error for UnknownPolicy {}

impl TryFrom<u8> for ReplacementPolicy {
    type Error = UnknownPolicy;

    ghost try_from_gives = { Names replacement_number clock };

    fn try_from(number: u8) -> Result<Self, UnknownPolicy> {
        match number {
            0 => Ok(ReplacementPolicy::Lru),
            1 => Ok(ReplacementPolicy::Mru),
            2 => Ok(ReplacementPolicy::Fifo),
            3 => Ok(ReplacementPolicy::Random),
            4 => Ok(ReplacementPolicy::Lfu),
            5 => Ok(ReplacementPolicy::Clock),
            _ => Err(UnknownPolicy(number)),
        }
    }
}

impl TryFrom<u8> for WritePolicy {
    type Error = UnknownPolicy;

    ghost try_from_gives = { Names write_number write_back };

    fn try_from(number: u8) -> Result<Self, UnknownPolicy> {
        match number {
            0 => Ok(WritePolicy::WriteThrough),
            1 => Ok(WritePolicy::WriteBack),
            _ => Err(UnknownPolicy(number)),
        }
    }
}

impl TryFrom<u8> for WriteAllocPolicy {
    type Error = UnknownPolicy;

    ghost try_from_gives = { Names write_alloc_number no_write_allocate };

    fn try_from(number: u8) -> Result<Self, UnknownPolicy> {
        match number {
            0 => Ok(WriteAllocPolicy::WriteAllocate),
            1 => Ok(WriteAllocPolicy::NoWriteAllocate),
            _ => Err(UnknownPolicy(number)),
        }
    }
}
