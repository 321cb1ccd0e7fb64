ghost use Rattle.std.specs.Prelude.{◌≡◌, ◌≤◌};
ghost use Rattle.sets.specs.Policy.{fresh, is_well_formed, used, touched, installed};

use crate::{fresh_order, is_order, to_front};
use config::ReplacementPolicy;

/// What a set keeps beside its lines' marks. An entry of an order past the set's ways means nothing.
#[repr(C)]
#[derive(Clone, Copy, Debug, PartialEq, Eq, Hash)]
pub struct CacheSet {
    /// The order of use, the last used way in front (LRU, MRU, LFU).
    pub lru_order: [u8; 16],
    /// The order of coming in, the newest way in front (FIFO).
    pub fifo_order: [u8; 16],
    /// The state of the random numbers (Random).
    pub rand_state: u32,
    /// The way that the next sweep looks at first (Clock).
    pub clock_hand: u8,
}

impl CacheSet {
    /// A fresh set.
    #[tactic(auto, unfolding(crate::specs::Policy::fresh))]
    pub fn new(ways: usize) -> Self
        requires { ways ≤ 16 }
        ensures { result ≡ fresh ways }
    {
        CacheSet {
            lru_order: fresh_order(ways),
            fifo_order: fresh_order(ways),
            rand_state: 0xDEAD_BEEF,
            clock_hand: 0,
        }
    }

    /// Whether both orders have each way once and the hand is at a way.
    #[tactic(auto, unfolding(crate::specs::Policy::is_well_formed))]
    pub fn is_well_formed(self, ways: usize) -> bool
        requires { ways ≤ 16 }
        ensures { result ≡ is_well_formed self ways }
    {
        is_order(self.lru_order, ways)
            && is_order(self.fifo_order, ways)
            && (self.clock_hand as usize) < ways
    }

    /// A hit on the way: under LRU, MRU and LFU it moves to the front.
    #[tactic(auto, unfolding(crate::specs::Policy::touched))]
    pub fn touch(self, way: u8, policy: ReplacementPolicy) -> Self
        ensures { result ≡ touched self way policy }
    {
        match policy {
            ReplacementPolicy::Lru | ReplacementPolicy::Mru | ReplacementPolicy::Lfu => CacheSet {
                lru_order: to_front(self.lru_order, way),
                ..self
            },
            _ => self,
        }
    }

    /// A line that comes into the way: under LRU, MRU and LFU the way moves to the front, under FIFO to
    /// the front of its own order.
    #[tactic(auto, unfolding(crate::specs::Policy::installed, crate::specs::Policy::touched))]
    pub fn install(self, way: u8, policy: ReplacementPolicy) -> Self
        ensures { result ≡ installed self way policy }
    {
        match policy {
            ReplacementPolicy::Fifo => CacheSet {
                fifo_order: to_front(self.fifo_order, way),
                ..self
            },
            _ => self.touch(way, policy),
        }
    }
}

/// What a line's use leaves in its marks.
#[repr(C)]
#[derive(Clone, Copy, Debug, PartialEq, Eq, Hash)]
pub struct LineUse {
    /// How often it was used (LFU).
    pub freq: u64,
    /// Whether it was used since the hand passed (Clock).
    pub ref_bit: bool,
}

impl LineUse {
    /// Of a line that has just come in, under every policy.
    pub const INSTALLED: LineUse = LineUse {
        freq: 1,
        ref_bit: true,
    };

    /// A hit on the line: under LFU it counts, up to the largest number; under Clock it sets the bit.
    #[tactic(auto, unfolding(crate::specs::Policy::used))]
    pub fn touch(self, policy: ReplacementPolicy) -> Self
        ensures { result ≡ used self policy }
    {
        match policy {
            ReplacementPolicy::Lfu => LineUse {
                freq: self.freq.saturating_add(1),
                ..self
            },
            ReplacementPolicy::Clock => LineUse {
                ref_bit: true,
                ..self
            },
            _ => self,
        }
    }
}
