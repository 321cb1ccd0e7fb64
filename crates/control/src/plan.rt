ghost use Rattle.std.specs.Prelude.{◌≡◌, ◌≤◌};
ghost use Rattle.ram.specs.Ram.{reach_of};
ghost use Rattle.control.specs.Plan.{outside_of, still, straight_plan};

use crate::{CacheStats, Mark};
use sets::CacheSet;

/// Who asks.
#[derive(Clone, Copy, Debug, PartialEq, Eq, Hash)]
pub enum Kind {
    /// `read_byte_ro`: a dirty victim is dropped.
    Fetch,
    /// A data read.
    Load,
    Store,
}

/// One access, all of it inside one line.
#[derive(Clone, Copy, Debug, PartialEq, Eq, Hash)]
pub struct Access {
    pub kind: Kind,
    pub addr: u32,
    /// 1, 2 or 4 bytes.
    pub width: u32,
}

/// How many bytes move, in this order; 0 for what does not happen.
#[derive(Clone, Copy, Debug, PartialEq, Eq, Hash)]
pub struct Plan {
    /// Of the value, to RAM at the address.
    pub store: u32,
    /// Of the line, to RAM at `back_to`.
    pub back: u32,
    pub back_to: u32,
    /// Of RAM, from the base of the address's line on, into the line.
    pub fill: u32,
    /// Of the value, into the line at the offset.
    pub put: u32,
    /// Of the line at the offset, to the value.
    pub read: u32,
    /// Of RAM at the address, to the value.
    pub load: u32,
    /// The address outside RAM that was needed, where one was.
    pub refused: Option<u32>,
}

impl Default for Plan {
    ghost is_default = { λ plan. plan ≡ still };

    fn default() -> Self {
        Plan {
            store: 0,
            back: 0,
            back_to: 0,
            fill: 0,
            put: 0,
            read: 0,
            load: 0,
            refused: None,
        }
    }
}

/// What an access comes to: the bytes that move, what is added to the counters, and what it leaves in the
/// line of one way and in the set.
#[derive(Clone, Copy, Debug, PartialEq, Eq, Hash)]
pub struct Step {
    pub plan: Plan,
    pub stats: CacheStats,
    pub way: usize,
    pub mark: Mark,
    pub set: CacheSet,
}

/// An access on a level that passes everything on to RAM: nothing is looked up, and nothing counts.
#[tactic(auto, unfolding(crate::specs::Plan::straight_plan))]
pub fn straight(access: Access, ram_len: usize) -> Plan
    requires { ram_len ≤ 16777216 }
    ensures { result ≡ straight_plan access ram_len }
{
    Plan {
        store: inside(ram_len, access.addr, access.stored()),
        load: inside(ram_len, access.addr, access.read()),
        refused: outside(ram_len, access.addr, access.width),
        ..Plan::default()
    }
}

/// How many of `n` bytes from `addr` on lie inside RAM.
#[tactic(auto, using(crate::proofs::Reach::reach_le))]
pub fn inside(ram_len: usize, addr: u32, n: u32) -> u32
    ensures { result ≡ reach_of ram_len addr n }
{
    ram::reach(ram_len, addr, n as usize) as u32
}

/// The first of `n` bytes from `addr` on that lies outside RAM, if one does.
#[tactic(auto, unfolding(crate::specs::Plan::outside_of), using(crate::proofs::Reach::place_fits))]
pub fn outside(ram_len: usize, addr: u32, n: u32) -> Option<u32>
    requires { ram_len ≤ 16777216 }
    ensures { result ≡ outside_of ram_len addr n }
{
    let got = inside(ram_len, addr, n);
    if got < n { Some(addr + got) } else { None }
}
