ghost use Rattle.std.specs.Prelude.{◌≡◌, ◌+◌, ◌*◌, ◌<◌, ◌≤◌, true, length};
ghost use Rattle.control.specs.Formed.{is_set_formed};
ghost use Rattle.control.specs.Geometry.{Fits, set_of};
ghost use Rattle.control.specs.Marks.{set_at, committed, served, stepped_marks};

use crate::{Access, CacheStats, Geometry, Lines, Plan, Step, serve};
use sets::{CacheSet, load_order, store_order};

/// The marks of a level: of line set × ways + way, of the orders at set × ways + position, and of each
/// set. What stands past the last line or set is never read or changed.
#[derive(Clone, Copy)]
pub struct Marks {
    pub tags: [u32; 256],
    pub valid: [bool; 256],
    pub dirty: [bool; 256],
    pub reference: [bool; 256],
    pub freq: [u64; 256],
    pub lru_order: [u8; 256],
    pub fifo_order: [u8; 256],
    pub clock_hand: [u8; 256],
    pub rand_state: [u32; 256],
}

/// What an access on a level comes to, beside the marks that it leaves.
#[derive(Clone, Copy, Debug, PartialEq, Eq, Hash)]
pub struct Served {
    pub plan: Plan,
    pub stats: CacheStats,
    /// The line that was served, set × ways + way.
    pub line: usize,
}

impl Marks {
    /// A set's orders, hand and state, taken out.
    #[tactic(auto, unfolding(crate::specs::Marks::set_at))]
    pub fn set(&self, set: usize, base: usize, ways: usize) -> CacheSet
        requires set { set < 256 }
        requires lines { (ways ≤ 16) × (base + ways ≤ 256) }
        ensures { result ≡ set_at self.now set base ways }
    {
        CacheSet {
            lru_order: load_order(&self.lru_order, base, ways),
            fifo_order: load_order(&self.fifo_order, base, ways),
            rand_state: self.rand_state[set],
            clock_hand: self.clock_hand[set],
        }
    }

    // A step's line and set, put back.
    #[tactic(auto, unfolding(crate::specs::Marks::committed))]
    fn commit(&mut self, set: usize, base: usize, ways: usize, step: &Step)
        requires set { set < 256 }
        requires lines { (ways ≤ 16) × (base + ways ≤ 256) }
        requires way { base + step.now.way < 256 }
        ensures { self.new ≡ committed self.old set base ways step.now }
    {
        let line = base + step.way;
        self.tags[line] = step.mark.tag;
        self.valid[line] = step.mark.valid;
        self.dirty[line] = step.mark.dirty;
        self.reference[line] = step.mark.used.ref_bit;
        self.freq[line] = step.mark.used.freq;
        store_order(&mut self.lru_order, base, step.set.lru_order, ways);
        store_order(&mut self.fifo_order, base, step.set.fifo_order, ways);
        self.clock_hand[set] = step.set.clock_hand;
        self.rand_state[set] = step.set.rand_state;
    }

    /// One access on a level's marks.
    #[tactic(auto, unfolding(crate::specs::Marks::stepped_marks, crate::specs::Formed::is_set_formed))]
    pub fn step(&mut self, g: Geometry, access: Access, ram_len: usize) -> Served
        requires fits { Fits g }
        requires lines { g.sets * g.ways ≤ 256 }
        requires ram { ram_len ≤ 16777216 }
        requires formed { is_set_formed g self.old (set_of g access.addr) ≡ true }
        ensures { served result self.new ≡ stepped_marks g access ram_len self.old }
    {
        let ways = g.ways as usize;
        let set = g.set(access.addr) as usize;
        let base = set * ways;
        let held = self.set(set, base, ways);
        let tags = &self.tags[..];
        let valid = &self.valid[..];
        let dirty = &self.dirty[..];
        let freq = &self.freq[..];
        let reference = &mut self.reference[..];
        let lines = Lines {
            tags: &tags[base..base + ways],
            valid: &valid[base..base + ways],
            dirty: &dirty[base..base + ways],
            freq: &freq[base..base + ways],
        };
        let step = serve(
            g,
            access,
            ram_len,
            held,
            lines,
            &mut reference[base..base + ways],
        );
        self.commit(set, base, ways, &step);
        Served {
            plan: step.plan,
            stats: step.stats,
            line: base + step.way,
        }
    }
}
