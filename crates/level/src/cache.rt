ghost use Rattle.std.specs.Prelude.{◌≡◌};
ghost use Rattle.level.specs.Opening.{bypass, unopened, opening, opened};

use crate::Refusal;
use config::CacheConfig;
use control::{CacheStats, Geometry, Marks};

/// A level. Its lines' bytes lie in a buffer that a caller lends: line set × ways + way, then the offset.
#[derive(Clone, Copy)]
pub struct Cache {
    pub config: CacheConfig,
    pub marks: Marks,
    pub stats: CacheStats,
}

/// What opening answers, and the level.
#[derive(Clone, Copy)]
pub struct Opened {
    pub answer: Result<(), Refusal>,
    pub level: Cache,
}

impl Cache {
    // A level of this configuration with nothing in it: one that passes everything on to RAM.
    fn bypass(config: CacheConfig) -> Self
        ensures { result ≡ bypass config }
    {
        Cache {
            config,
            marks: Marks::blank(),
            stats: CacheStats::default(),
        }
    }

    /// Opens a level on a line buffer, which is zeroed. A configuration that cannot be used opens as a
    /// level that passes everything on to RAM; one beyond the limits, or a buffer of another size, as such
    /// a level with the configuration of all zeros. None of these touches the buffer.
    #[tactic(auto, unfolding(crate::specs::Opening::opening))]
    pub fn new(config: CacheConfig, lines: &mut [u8]) -> Opened
        ensures { opened result lines.new ≡ opening config lines.old }
    {
        if let Err(reason) = config.validate() {
            return Opened {
                answer: Err(Refusal::Unusable(reason)),
                level: Cache::bypass(config),
            };
        }
        let Some(g) = Geometry::of(config) else {
            return Cache::unopened(Refusal::BeyondLimits);
        };
        if lines.len() as u64 != config.size {
            return Cache::unopened(Refusal::LinesMisfit);
        }
        lines.fill(0);
        Opened {
            answer: Ok(()),
            level: Cache {
                config,
                marks: Marks::fresh(g),
                stats: CacheStats::default(),
            },
        }
    }

    // A refusal to open, with the level of no configuration.
    fn unopened(refusal: Refusal) -> Opened
        ensures { result ≡ unopened refusal }
    {
        Opened {
            answer: Err(refusal),
            level: Cache::bypass(CacheConfig::none()),
        }
    }
}
