//! The rules of one set of a cache level, as `CacheSet` of cache.rs has them: lookup, the orders of the
//! ways, what a hit and an install move, and the victim of each policy.
//!
//! A set's lines are lent as slices of its marks, one entry for each way.
#![tactic(auto)]

mod order;
mod set;
mod victim;

ghost use Rattle.std.specs.Prelude.{◌≡◌, ◌<◌, length, IfSome};
ghost use Rattle.sets.specs.Ways.{lookup_of, free_of};

pub use order::{fresh_order, is_order, load_order, store_order, to_front};
pub use set::{CacheSet, LineUse};
pub use victim::Victim;

/// A hit: the lowest valid way with the tag.
#[tactic(auto, unfolding(crate::specs::Ways::lookup_of))]
pub fn lookup(tags: &[u32], valid: &[bool], tag: u32) -> Option<usize>
    ensures way { result ≡ lookup_of tags.now valid.now tag }
    ensures below { IfSome result (λ way. way < length valid.now) }
{
    valid
        .iter()
        .zip(tags.iter())
        .position(|(&valid, &held)| valid && held == tag)
}

/// The lowest invalid way.
#[tactic(auto, unfolding(crate::specs::Ways::free_of))]
pub fn free_way(valid: &[bool]) -> Option<usize>
    ensures { result ≡ free_of valid.now }
{
    valid.iter().position(|&valid| !valid)
}
