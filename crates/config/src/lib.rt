//! The configuration of a cache level, as config.rs has it: what is valid, what lies within the
//! limits, where an address falls, and what a look costs.
//!
//! No function has a `requires`. Each answers on every configuration by the definitions of specs/, in
//! which n / 0 is 0 and n % 0 is n; docs/DIFFERENCES.md says where the Rust would stop instead.
#![tactic(auto)]

mod policy;
mod reason;

ghost use Rattle.std.specs.Prelude.{◌≡◌, ◌/◌, ◌<◌, ◌^◌};
ghost use Rattle.std.specs.Option.{SomeIff};
ghost use Rattle.std.specs.Int.Count.{count_trailing_zeros};
ghost use Rattle.config.specs.Config.{
  reason_of,
  reason_of_sets,
  is_valid,
  within_limits,
  geometry_within,
  cycles_within,
  policies_within,
  set_bytes,
  num_sets,
  addr_tag,
  addr_index,
  addr_offset,
  line_base,
  search_cycles,
  transfer_cycles,
  stock,
  none,
};
ghost use Rattle.config.specs.Reasons.{verdict_of};

pub use policy::{ReplacementPolicy, UnknownPolicy, WriteAllocPolicy, WritePolicy};
pub use reason::Reason;

/// A configuration, right or wrong: each policy is the number that names it, since any number is
/// answered, here and from C.
#[repr(C)]
#[derive(Clone, Copy, Debug, PartialEq, Eq, Hash)]
pub struct CacheConfig {
    /// Total bytes.
    pub size: u64,
    /// Bytes per line.
    pub line_size: u64,
    /// Ways per set.
    pub associativity: u64,
    /// The policies, by the numbers below.
    pub replacement: u8,
    pub write_policy: u8,
    pub write_alloc: u8,
    pub inclusion: u8,
    /// Cycles of a hit.
    pub hit_latency: u64,
    /// More cycles on a miss.
    pub miss_penalty: u64,
    /// More cycles for each way beyond the first.
    pub assoc_penalty: u64,
    /// Bus width in bytes; 0 counts as 1.
    pub transfer_width: u32,
}

/// The stock configuration.
impl Default for CacheConfig {
    ghost is_default = { λ c. c ≡ stock };

    #[tactic(auto, unfolding(crate::specs::Config::stock))]
    fn default() -> Self {
        CacheConfig {
            size: 1024,
            line_size: 16,
            associativity: 2,
            replacement: CacheConfig::LRU,
            write_policy: CacheConfig::WRITE_BACK,
            write_alloc: CacheConfig::WRITE_ALLOCATE,
            inclusion: CacheConfig::NON_INCLUSIVE,
            hit_latency: 1,
            miss_penalty: 50,
            assoc_penalty: 1,
            transfer_width: 8,
        }
    }
}

impl CacheConfig {
    pub const LRU: u8 = ReplacementPolicy::Lru as u8;

    pub const MRU: u8 = ReplacementPolicy::Mru as u8;

    pub const FIFO: u8 = ReplacementPolicy::Fifo as u8;

    pub const RANDOM: u8 = ReplacementPolicy::Random as u8;

    pub const LFU: u8 = ReplacementPolicy::Lfu as u8;

    pub const CLOCK: u8 = ReplacementPolicy::Clock as u8;

    pub const WRITE_THROUGH: u8 = WritePolicy::WriteThrough as u8;

    pub const WRITE_BACK: u8 = WritePolicy::WriteBack as u8;

    pub const WRITE_ALLOCATE: u8 = WriteAllocPolicy::WriteAllocate as u8;

    pub const NO_WRITE_ALLOCATE: u8 = WriteAllocPolicy::NoWriteAllocate as u8;

    // Of inclusion it is only ever asked whether it is this one, so no enum stands behind the three.
    pub const NON_INCLUSIVE: u8 = 0;

    pub const INCLUSIVE: u8 = 1;

    pub const EXCLUSIVE: u8 = 2;

    pub const MAX_LINE_SIZE: u64 = 256;

    pub const MAX_WAYS: u64 = 16;

    pub const MAX_LINES: u64 = 256;

    pub const MAX_CYCLES: u64 = 1_000_000;

    /// All zeros: the configuration of a level that could not be opened.
    #[tactic(auto, unfolding(crate::specs::Config::none))]
    pub fn none() -> Self
        ensures { result ≡ none }
    {
        CacheConfig {
            size: 0,
            line_size: 0,
            associativity: 0,
            replacement: CacheConfig::LRU,
            write_policy: CacheConfig::WRITE_THROUGH,
            write_alloc: CacheConfig::WRITE_ALLOCATE,
            inclusion: CacheConfig::NON_INCLUSIVE,
            hit_latency: 0,
            miss_penalty: 0,
            assoc_penalty: 0,
            transfer_width: 0,
        }
    }

    // Bytes in a set, where 64 bits hold them.
    fn bytes_per_set(self) -> Option<u64>
        ensures { SomeIff result (set_bytes self < 2 ^ 64) (set_bytes self) }
    {
        self.line_size.checked_mul(self.associativity)
    }

    /// How many sets there are.
    #[tactic(auto, unfolding(crate::specs::Config::num_sets))]
    pub fn num_sets(self) -> u64
        ensures { result ≡ num_sets self }
    {
        self.bytes_per_set()
            .and_then(|bytes| self.size.checked_div(bytes))
            .unwrap_or(0)
    }

    pub fn offset_bits(self) -> u32
        ensures { result ≡ count_trailing_zeros 64 self.line_size }
    {
        self.line_size.trailing_zeros()
    }

    pub fn index_bits(self) -> u32
        ensures { result ≡ count_trailing_zeros 64 (num_sets self) }
    {
        self.num_sets().trailing_zeros()
    }

    // Which of the lines of memory the address lies in.
    fn line_number(self, addr: u32) -> u64
        ensures { result ≡ addr / self.line_size }
    {
        u64::from(addr).checked_div(self.line_size).unwrap_or(0)
    }

    #[tactic(auto, unfolding(crate::specs::Config::addr_tag), using(crate::proofs::NumberLaws::quotient_twice))]
    pub fn addr_tag(self, addr: u32) -> u32
        ensures { result ≡ addr_tag self addr }
    {
        self.line_number(addr)
            .checked_div(self.num_sets())
            .unwrap_or(0) as u32
    }

    #[tactic(auto, unfolding(crate::specs::Config::addr_index))]
    pub fn addr_index(self, addr: u32) -> usize
        ensures { result ≡ addr_index self addr }
    {
        let line = self.line_number(addr);
        line.checked_rem(self.num_sets()).unwrap_or(line) as usize
    }

    #[tactic(auto, unfolding(crate::specs::Config::addr_offset))]
    pub fn addr_offset(self, addr: u32) -> usize
        ensures { result ≡ addr_offset self addr }
    {
        let addr = u64::from(addr);
        addr.checked_rem(self.line_size).unwrap_or(addr) as usize
    }

    #[tactic(auto, unfolding(crate::specs::Config::line_base, crate::specs::Config::addr_offset))]
    pub fn line_base(self, addr: u32) -> u32
        ensures { result ≡ line_base self addr }
    {
        addr - self.addr_offset(addr) as u32
    }

    /// `Ok` for a configuration that can be used, else the first reason that applies.
    #[tactic(auto, unfolding(crate::specs::Config::reason_of), using(crate::proofs::PowerLaws::one_set_power))]
    pub fn validate(self) -> Result<(), Reason>
        ensures { verdict_of result ≡ reason_of self }
    {
        if self.size == 0 {
            return Err(Reason::NoSize);
        }
        if self.line_size < 4 {
            return Err(Reason::LineTooShort);
        }
        if self.associativity == 0 {
            return Err(Reason::NoWays);
        }
        if !self.line_size.is_power_of_two() {
            return Err(Reason::LineNotPowerOfTwo);
        }
        self.validate_sets()
    }

    // The reasons from 5 on.
    #[tactic(auto, unfolding(crate::specs::Config::reason_of_sets, crate::specs::Config::reason_of_rest, crate::specs::Config::num_sets), using(crate::proofs::PowerLaws::one_set_power))]
    fn validate_sets(self) -> Result<(), Reason>
        ensures { verdict_of result ≡ reason_of_sets self.size (set_bytes self) self.inclusion }
    {
        let bytes_per_set = self.bytes_per_set().ok_or(Reason::SetOverflows)?;
        if bytes_per_set > self.size {
            return Err(Reason::SetAboveSize);
        }
        if !self.size.is_multiple_of(bytes_per_set) {
            return Err(Reason::SizeNotWholeSets);
        }
        if !self.num_sets().is_power_of_two() {
            return Err(Reason::SetsNotPowerOfTwo);
        }
        if self.inclusion != CacheConfig::NON_INCLUSIVE {
            return Err(Reason::InclusionUnsupported);
        }
        Ok(())
    }

    #[tactic(auto, unfolding(crate::specs::Config::is_valid))]
    pub fn is_valid_config(self) -> bool
        ensures { result ≡ is_valid self }
    {
        self.validate().is_ok()
    }

    /// Whether the numbers lie within the limits and each policy number names a policy.
    #[tactic(auto, unfolding(crate::specs::Config::within_limits))]
    pub fn within_limits(self) -> bool
        ensures { result ≡ within_limits self }
    {
        self.geometry_within() && self.cycles_within() && self.policies_within()
    }

    #[tactic(auto, unfolding(crate::specs::Config::geometry_within), using(crate::proofs::NumberLaws::lines_le))]
    fn geometry_within(self) -> bool
        ensures { result ≡ geometry_within self }
    {
        self.line_size <= CacheConfig::MAX_LINE_SIZE
            && self.associativity <= CacheConfig::MAX_WAYS
            && self.num_sets() * self.associativity <= CacheConfig::MAX_LINES
    }

    #[tactic(auto, unfolding(crate::specs::Config::cycles_within))]
    fn cycles_within(self) -> bool
        ensures { result ≡ cycles_within self }
    {
        self.hit_latency <= CacheConfig::MAX_CYCLES
            && self.miss_penalty <= CacheConfig::MAX_CYCLES
            && self.assoc_penalty <= CacheConfig::MAX_CYCLES
    }

    #[tactic(auto, unfolding(crate::specs::Config::policies_within))]
    fn policies_within(self) -> bool
        ensures { result ≡ policies_within self }
    {
        ReplacementPolicy::try_from(self.replacement).is_ok()
            && WritePolicy::try_from(self.write_policy).is_ok()
            && WriteAllocPolicy::try_from(self.write_alloc).is_ok()
    }

    /// Cycles of a tag search, modulo 2^64: the hit's, and the penalty for each way beyond the first.
    #[tactic(auto, unfolding(crate::specs::Config::search_cycles))]
    pub fn tag_search_cycles(self) -> u64
        ensures { result ≡ search_cycles self }
    {
        let more_ways = self.associativity.saturating_sub(1);
        self.hit_latency
            .wrapping_add(more_ways.wrapping_mul(self.assoc_penalty))
    }

    /// Cycles to move a line over the bus: line size by width, rounded up.
    #[tactic(auto, unfolding(crate::specs::Config::transfer_cycles), using(crate::proofs::NumberLaws::rounded_up))]
    pub fn line_transfer_cycles(self) -> u64
        ensures { result ≡ transfer_cycles self }
    {
        self.line_size
            .div_ceil(u64::from(self.transfer_width.max(1)))
    }
}

#[cfg(test)]
mod tests {
    use super::*;

    #[test]
    fn says_what_is_wrong(rt: HostRuntime) {
        let mut config = CacheConfig::default();
        assert_eq!(rt; config.validate(), Ok(()));
        config.size = 96;
        assert_eq!(rt; config.validate(), Err(Reason::SetsNotPowerOfTwo));
    }

    #[test]
    fn numbers_name_policies(rt: HostRuntime) {
        assert_eq!(rt;
            ReplacementPolicy::try_from(CacheConfig::LFU),
            Ok(ReplacementPolicy::Lfu)
        );
        assert_eq!(rt; WritePolicy::try_from(2), Err(UnknownPolicy(2)));
    }
}
