ghost use Rattle.std.specs.Prelude.{◌≡◌, ◌≤◌, ◌<◌, true, length};
ghost use Rattle.sets.specs.Policy.{is_well_formed};
ghost use Rattle.control.specs.Geometry.{Fits};
ghost use Rattle.control.specs.Access.{
  hit_step,
  past_step,
  refused_store,
  stepped,
  marks,
  accessed,
};

use crate::allocate::allocate;
use crate::plan::{inside, outside};
use crate::{Access, CacheStats, Geometry, Lines, Mark, Plan, Step};
use sets::CacheSet;

// A hit.
#[tactic(auto, unfolding(crate::specs::Access::hit_step))]
fn hit(g: Geometry, access: Access, way: usize, mark: Mark, set: CacheSet) -> Step
    requires { way < 16 }
    ensures step { result ≡ hit_step g access way mark set }
    ensures same { result.way ≡ way }
{
    Step {
        plan: Plan {
            store: g.through(access),
            put: access.stored(),
            read: access.read(),
            ..Plan::default()
        },
        stats: g.hit_stats(access),
        way,
        mark: Mark {
            dirty: mark.dirty || g.dirties(access.kind),
            used: mark.used.touch(g.replacement),
            ..mark
        },
        set: set.touch(way as u8, g.replacement),
    }
}

// A store that RAM refuses before the level is asked.
#[tactic(auto, unfolding(crate::specs::Access::refused_store))]
fn refused_store(access: Access, ram_len: usize, place: u32, mark: Mark, set: CacheSet) -> Step
    ensures step { result ≡ refused_store access ram_len place mark set }
    ensures same { result.way ≡ 0 }
{
    Step {
        plan: Plan {
            store: inside(ram_len, access.addr, access.width),
            refused: Some(place),
            ..Plan::default()
        },
        stats: CacheStats::default(),
        way: 0,
        mark,
        set,
    }
}

// A miss that goes past the level, to RAM.
#[tactic(auto, unfolding(crate::specs::Access::past_step))]
fn past(g: Geometry, access: Access, ram_len: usize, mark: Mark, set: CacheSet) -> Step
    requires { ram_len ≤ 16777216 }
    ensures step { result ≡ past_step g access ram_len mark set }
    ensures same { result.way ≡ 0 }
{
    let refused = outside(ram_len, access.addr, access.width);
    let mut late = CacheStats::default();
    if refused.is_none() && !g.is_through(access.kind) {
        late.ram_write_bytes = u64::from(access.width);
    }
    Step {
        plan: Plan {
            store: inside(ram_len, access.addr, access.width),
            refused,
            ..Plan::default()
        },
        stats: g.miss_stats(access).plus(late),
        way: 0,
        mark,
        set,
    }
}

/// One access on the set that its address falls into.
#[tactic(auto, unfolding(crate::specs::Access::accessed), using(crate::proofs::Sets::formed_hand))]
pub fn serve(
    g: Geometry,
    access: Access,
    ram_len: usize,
    set: CacheSet,
    lines: Lines,
    ref_bits: &mut [bool],
) -> Step
    requires fits { Fits g }
    requires ram { ram_len ≤ 16777216 }
    requires tags { length lines.tags.now ≡ g.ways }
    requires valid { length lines.valid.now ≡ g.ways }
    requires dirty { length lines.dirty.now ≡ g.ways }
    requires freq { length lines.freq.now ≡ g.ways }
    requires bits { length ref_bits.old ≡ g.ways }
    requires formed { is_well_formed set g.ways ≡ true }
    ensures step { stepped result ref_bits.new ≡ accessed g access ram_len set (marks lines.entry.tags.now lines.entry.valid.now lines.entry.dirty.now lines.entry.freq.now ref_bits.old) }
    ensures among { result.way < g.ways }
{
    if let Some(place) = outside(ram_len, access.addr, g.through(access)) {
        return refused_store(access, ram_len, place, lines.mark(ref_bits, 0), set);
    }
    match sets::lookup(lines.tags, lines.valid, g.tag(access.addr)) {
        Some(way) => hit(g, access, way, lines.mark(ref_bits, way), set),
        None if g.allocates(access.kind) => {
            let victim = set.find_victim(g.replacement, lines.valid, lines.freq, ref_bits);
            let mark = lines.mark(ref_bits, victim.way);
            allocate(g, access, ram_len, victim.way, mark, victim.set)
        }
        None => past(g, access, ram_len, lines.mark(ref_bits, 0), set),
    }
}
