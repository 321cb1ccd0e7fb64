ghost use Rattle.std.specs.Prelude.{◌≡◌, min, true, length};
ghost use Rattle.sets.specs.Ways.{lookup_of, free_of};
ghost use Rattle.sets.specs.Policy.{fresh};
ghost use Rattle.threshgleam.specs.SetRules.{
  found_of,
  policy_of,
  touched_by,
  installed_by,
  used_by,
  set_fits,
  chosen_by,
  with_bits,
};

use config::ReplacementPolicy;
use sets::{CacheSet, LineUse};

/// A way where one was found, and 0 where none was.
#[repr(C)]
#[derive(Clone, Copy, Debug, PartialEq, Eq, Hash)]
pub struct Found {
    pub found: bool,
    pub way: usize,
}

impl From<Option<usize>> for Found {
    ghost from_gives = { λ way found. found ≡ found_of way };

    fn from(way: Option<usize>) -> Found {
        Found {
            found: way.is_some(),
            way: way.unwrap_or(0),
        }
    }
}

/// 0, the way that the set gives up and the set after it; or 24 and the set as it was.
#[repr(C)]
#[derive(Clone, Copy, Debug, PartialEq, Eq, Hash)]
pub struct Chosen {
    pub no: u8,
    pub way: usize,
    pub set: CacheSet,
}

// The policy of this number.
#[tactic(auto, using(crate::proofs::PolicyLaws::named))]
fn policy_of(number: u8) -> Option<ReplacementPolicy>
    ensures { result ≡ policy_of number }
{
    ReplacementPolicy::try_from(number).ok()
}

// Whether the lent marks are of one set of 1 to 16 ways, and the set is well formed for them.
fn set_fits(set: CacheSet, valid: &[bool], freq: &[u64], ref_bits: &[bool]) -> bool
    ensures { result ≡ set_fits set valid.now freq.now ref_bits.now }
{
    let ways = valid.len();
    0 < ways
        && ways <= 16
        && freq.len() == ways
        && ref_bits.len() == ways
        && set.is_well_formed(ways)
}

/// A fresh set; more than 16 ways count as 16.
#[unsafe(no_mangle)]
pub extern "C" fn tg_set_new(ways: usize) -> CacheSet
    ensures { result ≡ fresh (min ways 16) }
{
    CacheSet::new(ways.min(16))
}

#[unsafe(no_mangle)]
pub extern "C" fn tg_set_lookup(tags: &[u32], valid: &[bool], tag: u32) -> Found
    ensures { result ≡ found_of (lookup_of tags.now valid.now tag) }
{
    sets::lookup(tags, valid, tag).into()
}

#[unsafe(no_mangle)]
pub extern "C" fn tg_set_free_way(valid: &[bool]) -> Found
    ensures { result ≡ found_of (free_of valid.now) }
{
    sets::free_way(valid).into()
}

/// A number that names no policy moves nothing, here and below.
#[unsafe(no_mangle)]
pub extern "C" fn tg_set_touch(set: CacheSet, way: u8, policy: u8) -> CacheSet
    ensures { result ≡ touched_by (policy_of policy) set way }
{
    match policy_of(policy) {
        Some(policy) => set.touch(way, policy),
        None => set,
    }
}

#[unsafe(no_mangle)]
pub extern "C" fn tg_set_install(set: CacheSet, way: u8, policy: u8) -> CacheSet
    ensures { result ≡ installed_by (policy_of policy) set way }
{
    match policy_of(policy) {
        Some(policy) => set.install(way, policy),
        None => set,
    }
}

#[unsafe(no_mangle)]
pub extern "C" fn tg_line_touch(line: LineUse, policy: u8) -> LineUse
    ensures { result ≡ used_by (policy_of policy) line }
{
    match policy_of(policy) {
        Some(policy) => line.touch(policy),
        None => line,
    }
}

#[unsafe(no_mangle)]
pub extern "C" fn tg_line_installed() -> LineUse
    ensures { result ≡ record { freq = 1; ref_bit = true } }
{
    LineUse::INSTALLED
}

#[tactic(auto, using(crate::proofs::SetLaws::fits_hand))]
#[unsafe(no_mangle)]
pub extern "C" fn tg_set_find_victim(
    set: CacheSet,
    policy: u8,
    valid: &[bool],
    freq: &[u64],
    ref_bits: &mut [bool],
) -> Chosen
    ensures { with_bits result ref_bits.new ≡ chosen_by (policy_of policy) set valid.now freq.now ref_bits.old }
{
    match policy_of(policy) {
        Some(policy) if set_fits(set, valid, freq, ref_bits) => {
            let victim = set.find_victim(policy, valid, freq, ref_bits);
            Chosen {
                no: 0,
                way: victim.way,
                set: victim.set,
            }
        }
        _ => Chosen {
            no: 24,
            way: 0,
            set,
        },
    }
}
