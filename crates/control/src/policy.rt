ghost use Rattle.std.specs.Prelude.{◌≡◌};
ghost use Rattle.control.specs.Plan.{stored_of, read_of};
ghost use Rattle.control.specs.Access.{
  is_through,
  through,
  dirties,
  allocates,
  store_stats,
  hit_stats,
  miss_stats,
  fill_stats,
};

use crate::{Access, CacheStats, Geometry, Kind};
use config::{WriteAllocPolicy, WritePolicy};

impl Access {
    /// Bytes that it stores.
    pub fn stored(self) -> u32
        ensures { result ≡ stored_of self.kind self.width }
    {
        match self.kind {
            Kind::Fetch | Kind::Load => 0,
            Kind::Store => self.width,
        }
    }

    /// Bytes that it reads.
    pub fn read(self) -> u32
        ensures { result ≡ read_of self.kind self.width }
    {
        match self.kind {
            Kind::Fetch | Kind::Load => self.width,
            Kind::Store => 0,
        }
    }
}

// What the policies say of an access, and what its parts count.
impl Geometry {
    /// Whether it is a store that goes to RAM before the level is asked.
    pub fn is_through(self, kind: Kind) -> bool
        ensures { result ≡ is_through self.write_policy kind }
    {
        self.write_policy == WritePolicy::WriteThrough && kind == Kind::Store
    }

    /// The bytes of such a store.
    pub fn through(self, access: Access) -> u32
        ensures { result ≡ through self access }
    {
        if self.is_through(access.kind) {
            access.width
        } else {
            0
        }
    }

    /// Whether the access leaves its line dirty.
    pub fn dirties(self, kind: Kind) -> bool
        ensures { result ≡ dirties self.write_policy kind }
    {
        self.write_policy == WritePolicy::WriteBack && kind == Kind::Store
    }

    /// Whether a miss brings the line in.
    pub fn allocates(self, kind: Kind) -> bool
        ensures { result ≡ allocates self.write_alloc kind }
    {
        kind != Kind::Store || self.write_alloc == WriteAllocPolicy::WriteAllocate
    }

    #[tactic(auto, unfolding(crate::specs::Access::store_stats))]
    fn store_stats(self, access: Access) -> CacheStats
        ensures { result ≡ store_stats self access }
    {
        let mut stats = CacheStats::default();
        stats.bytes_stored = u64::from(access.stored());
        stats.ram_write_bytes = u64::from(self.through(access));
        stats
    }

    /// What a hit counts.
    #[tactic(auto, unfolding(crate::specs::Access::hit_stats))]
    pub fn hit_stats(self, access: Access) -> CacheStats
        ensures { result ≡ hit_stats self access }
    {
        let mut stats = CacheStats::default();
        stats.hits = 1;
        stats.total_cycles = self.search;
        if self.is_through(access.kind) {
            stats.total_cycles = self.search.wrapping_add(self.penalty);
        }
        self.store_stats(access).plus(stats)
    }

    /// What a miss counts before anything comes in.
    #[tactic(auto, unfolding(crate::specs::Access::miss_stats))]
    pub fn miss_stats(self, access: Access) -> CacheStats
        ensures { result ≡ miss_stats self access }
    {
        let mut stats = CacheStats::default();
        stats.misses = 1;
        stats.total_cycles = self.search.wrapping_add(self.penalty);
        if !self.is_through(access.kind) {
            stats.total_cycles = stats.total_cycles.wrapping_add(self.transfer);
        }
        self.store_stats(access).plus(stats)
    }

    /// What a fill counts.
    #[tactic(auto, unfolding(crate::specs::Access::fill_stats))]
    pub fn fill_stats(self, access: Access) -> CacheStats
        ensures { result ≡ fill_stats self access }
    {
        let mut stats = CacheStats::default();
        stats.bytes_loaded = u64::from(self.line_size);
        if self.is_through(access.kind) {
            stats.total_cycles = self.penalty.wrapping_add(self.transfer);
        }
        stats
    }
}
