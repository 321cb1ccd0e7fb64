ghost use Rattle.std.specs.Prelude.{◌≡◌};
ghost use Rattle.control.specs.Stats.{plus, nothing};

/// The eight counters of a level, and what an access adds to them.
#[repr(C)]
#[derive(Clone, Copy, Debug, PartialEq, Eq, Hash)]
pub struct CacheStats {
    pub hits: u64,
    pub misses: u64,
    pub evictions: u64,
    pub writebacks: u64,
    pub bytes_loaded: u64,
    pub bytes_stored: u64,
    pub total_cycles: u64,
    pub ram_write_bytes: u64,
}

impl Default for CacheStats {
    ghost is_default = { λ stats. stats ≡ nothing };

    fn default() -> Self {
        CacheStats {
            hits: 0,
            misses: 0,
            evictions: 0,
            writebacks: 0,
            bytes_loaded: 0,
            bytes_stored: 0,
            total_cycles: 0,
            ram_write_bytes: 0,
        }
    }
}

impl CacheStats {
    #[tactic(auto, unfolding(crate::specs::Stats::plus))]
    /// The counters with more added to them. They wrap past the top.
    pub fn plus(self, more: CacheStats) -> Self
        ensures { result ≡ plus self more }
    {
        CacheStats {
            hits: self.hits.wrapping_add(more.hits),
            misses: self.misses.wrapping_add(more.misses),
            evictions: self.evictions.wrapping_add(more.evictions),
            writebacks: self.writebacks.wrapping_add(more.writebacks),
            bytes_loaded: self.bytes_loaded.wrapping_add(more.bytes_loaded),
            bytes_stored: self.bytes_stored.wrapping_add(more.bytes_stored),
            total_cycles: self.total_cycles.wrapping_add(more.total_cycles),
            ram_write_bytes: self.ram_write_bytes.wrapping_add(more.ram_write_bytes),
        }
    }
}
