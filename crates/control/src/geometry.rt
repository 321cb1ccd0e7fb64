ghost use Rattle.std.specs.Prelude.{◌≡◌, ◌*◌, ◌≤◌, IfSome};
ghost use Rattle.control.specs.Geometry.{Fits, geometry_of, replacement_by, write_by, write_alloc_by, tag_of, set_of, offset_of, base_of, line_base};

use config::{CacheConfig, ReplacementPolicy, WriteAllocPolicy, WritePolicy};

/// What an access asks of a configuration, worked out once.
#[derive(Clone, Copy, Debug, PartialEq, Eq, Hash)]
pub struct Geometry {
    pub line_size: u32,
    pub sets: u32,
    pub ways: u32,
    pub replacement: ReplacementPolicy,
    pub write_policy: WritePolicy,
    pub write_alloc: WriteAllocPolicy,
    /// Cycles of a tag search.
    pub search: u64,
    /// More cycles on a miss, and for a write to RAM.
    pub penalty: u64,
    /// Cycles to move a line.
    pub transfer: u64,
}

// Past the last number that names one stands the last policy: a configuration within the limits has none.
#[tactic(auto, using(crate::proofs::Named::replacement_named))]
fn replacement_by(number: u8) -> ReplacementPolicy
    ensures { result ≡ replacement_by number }
{
    ReplacementPolicy::try_from(number).unwrap_or(ReplacementPolicy::Clock)
}

#[tactic(auto, using(crate::proofs::Named::write_named))]
fn write_by(number: u8) -> WritePolicy
    ensures { result ≡ write_by number }
{
    WritePolicy::try_from(number).unwrap_or(WritePolicy::WriteBack)
}

#[tactic(auto, using(crate::proofs::Named::write_alloc_named))]
fn write_alloc_by(number: u8) -> WriteAllocPolicy
    ensures { result ≡ write_alloc_by number }
{
    WriteAllocPolicy::try_from(number).unwrap_or(WriteAllocPolicy::NoWriteAllocate)
}

impl Geometry {
    /// Of a configuration that is valid and within the limits, and of no other.
    #[tactic(auto, unfolding(crate::specs::Geometry::geometry_of, crate::specs::Geometry::geometry_by), using(crate::proofs::Valid::some_line, crate::proofs::Valid::some_ways, crate::proofs::Valid::some_sets, crate::proofs::Valid::short_line, crate::proofs::Valid::few_ways, crate::proofs::Valid::few_sets, crate::proofs::Valid::few_lines))]
    pub fn of(c: CacheConfig) -> Option<Geometry>
        ensures geometry { result ≡ geometry_of c }
        ensures fits { IfSome result Fits }
        ensures lines { IfSome result (λ g. g.sets * g.ways ≤ 256) }
    {
        if !c.is_valid_config() || !c.within_limits() {
            return None;
        }
        Some(Geometry {
            line_size: c.line_size as u32,
            sets: c.num_sets() as u32,
            ways: c.associativity as u32,
            replacement: replacement_by(c.replacement),
            write_policy: write_by(c.write_policy),
            write_alloc: write_alloc_by(c.write_alloc),
            search: c.tag_search_cycles(),
            penalty: c.miss_penalty,
            transfer: c.line_transfer_cycles(),
        })
    }

    /// The tag of the line that the address lies in.
    pub fn tag(self, addr: u32) -> u32
        requires { Fits self }
        ensures { result ≡ tag_of self addr }
    {
        addr / self.line_size / self.sets
    }

    /// The set of that line.
    pub fn set(self, addr: u32) -> u32
        requires { Fits self }
        ensures { result ≡ set_of self addr }
    {
        addr / self.line_size % self.sets
    }

    /// Where in its line the address lies.
    pub fn offset(self, addr: u32) -> u32
        requires { Fits self }
        ensures { result ≡ offset_of self addr }
    {
        addr % self.line_size
    }

    /// The line's first address.
    pub fn base(self, addr: u32) -> u32
        requires { Fits self }
        ensures { result ≡ base_of self addr }
    {
        addr - self.offset(addr)
    }

    #[tactic(auto, using(crate::proofs::Bases::base_wraps))]
    /// The first address of the line with this tag in a set, modulo 2^32.
    pub fn line_base(self, tag: u32, set: u32) -> u32
        requires { Fits self }
        ensures { result ≡ line_base self tag set }
    {
        let line = tag.wrapping_mul(self.sets).wrapping_add(set);
        line.wrapping_mul(self.line_size)
    }
}
