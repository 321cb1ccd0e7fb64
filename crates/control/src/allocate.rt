ghost use Rattle.std.specs.Prelude.{◌≡◌, ◌≤◌, ◌<◌};
ghost use Rattle.control.specs.Geometry.{Fits};
ghost use Rattle.control.specs.Access.{writes_back, written_back, evicted_of, alloc_stats, alloc_step, filled_mark};

use crate::plan::{inside, outside};
use crate::{Access, CacheStats, Geometry, Kind, Mark, Plan, Step};
use sets::{CacheSet, LineUse};

/// What becomes of a victim's bytes, and what that adds to the counters.
#[derive(Clone, Copy, Debug, PartialEq, Eq, Hash)]
pub struct Evicted {
    pub stats: CacheStats,
    pub back: u32,
    pub back_to: u32,
    pub refused: Option<u32>,
}

// Whether the victim's bytes go back to RAM.
fn writes_back(kind: Kind, mark: Mark) -> bool
    ensures { result ≡ writes_back kind mark }
{
    match kind {
        Kind::Fetch => false,
        Kind::Load | Kind::Store => mark.valid && mark.dirty,
    }
}

// The line goes to RAM, from `to` on, as far as RAM reaches.
#[tactic(auto, unfolding(crate::specs::Access::written_back))]
fn write_back(g: Geometry, to: u32, ram_len: usize) -> Evicted
    requires { ram_len ≤ 16777216 }
    ensures { result ≡ written_back g to ram_len }
{
    let back = inside(ram_len, to, g.line_size);
    let refused = outside(ram_len, to, g.line_size);
    let mut stats = CacheStats::default();
    stats.ram_write_bytes = u64::from(back);
    if refused.is_none() {
        stats.writebacks = 1;
        stats.total_cycles = g.penalty.wrapping_add(g.transfer);
    }
    Evicted {
        stats,
        back,
        back_to: to,
        refused,
    }
}

#[tactic(auto, unfolding(crate::specs::Access::evicted_of))]
fn evict(g: Geometry, kind: Kind, mark: Mark, set: u32, ram_len: usize) -> Evicted
    requires fits { Fits g }
    requires ram { ram_len ≤ 16777216 }
    ensures { result ≡ evicted_of g kind mark set ram_len }
{
    if writes_back(kind, mark) {
        return write_back(g, g.line_base(mark.tag, set), ram_len);
    }
    Evicted {
        stats: CacheStats::default(),
        back: 0,
        back_to: 0,
        refused: None,
    }
}

// The marks of the line that comes in.
#[tactic(auto, unfolding(crate::specs::Access::filled_mark))]
fn filled_mark(g: Geometry, access: Access) -> Mark
    requires fits { Fits g }
    ensures { result ≡ filled_mark g access }
{
    Mark {
        tag: g.tag(access.addr),
        valid: true,
        dirty: g.dirties(access.kind),
        used: LineUse::INSTALLED,
    }
}

// The counters of a miss up to its fill.
#[tactic(auto, unfolding(crate::specs::Access::alloc_stats))]
fn alloc_stats(g: Geometry, access: Access, mark: Mark, evicted: Evicted) -> CacheStats
    ensures { result ≡ alloc_stats g access mark evicted }
{
    let mut evictions = CacheStats::default();
    evictions.evictions = u64::from(mark.valid);
    g.miss_stats(access).plus(evictions).plus(evicted.stats)
}

/// A miss that brings the line into a way: its victim's bytes go back first, if they are to, and then
/// the line comes in whole or not at all.
#[tactic(auto, unfolding(crate::specs::Access::alloc_step))]
pub fn allocate(
    g: Geometry,
    access: Access,
    ram_len: usize,
    way: usize,
    mark: Mark,
    set: CacheSet,
) -> Step
    requires fits { Fits g }
    requires ram { ram_len ≤ 16777216 }
    requires way { way < 16 }
    ensures step { result ≡ alloc_step g access ram_len way mark set }
    ensures same { result.way ≡ way }
{
    let evicted = evict(g, access.kind, mark, g.set(access.addr), ram_len);
    let stats = alloc_stats(g, access, mark, evicted);
    let plan = Plan {
        store: g.through(access),
        back: evicted.back,
        back_to: evicted.back_to,
        ..Plan::default()
    };
    let outside = outside(ram_len, g.base(access.addr), g.line_size);
    match evicted.refused.or(outside) {
        Some(place) => Step {
            plan: Plan {
                refused: Some(place),
                ..plan
            },
            stats,
            way,
            mark,
            set,
        },
        None => Step {
            plan: Plan {
                fill: g.line_size,
                put: access.stored(),
                read: access.read(),
                ..plan
            },
            stats: stats.plus(g.fill_stats(access)),
            way,
            mark: filled_mark(g, access),
            set: set.install(way as u8, g.replacement),
        },
    }
}
