ghost use Rattle.std.specs.Prelude.{true, ◌≡◌, ◌+◌, ◌*◌, ◌%◌, ◌^◌, ◌<◌, ◌≤◌, length, find, reverse};
ghost use Rattle.sets.specs.Policy.{is_well_formed};
ghost use Rattle.sets.specs.Victim.{
  random_step,
  least,
  has_freq,
  lfu_of,
  sweep,
  swept_bits,
  chosen,
  victim_of,
  with_bits,
};

use crate::{CacheSet, free_way};
use config::ReplacementPolicy;

/// The way that a set gives up, and the set after the choice.
#[repr(C)]
#[derive(Clone, Copy, Debug, PartialEq, Eq, Hash)]
pub struct Victim {
    pub way: usize,
    pub set: CacheSet,
}

// The next state of the random numbers.
fn random_step(state: u32) -> u32
    ensures { result ≡ random_step state }
{
    state.wrapping_mul(1664525).wrapping_add(1013904223)
}

// The least of the frequencies.
fn least(freq: &[u64]) -> u64
    ensures { result ≡ least freq.now }
{
    freq.iter().fold(u64::MAX, |least, &f| least.min(f))
}

// Whether the way has this frequency.
fn has_freq(freq: &[u64], way: u8, wanted: u64) -> bool
    ensures { result ≡ has_freq freq.now wanted way }
{
    freq.get(way as usize).is_some_and(|&f| f == wanted)
}

// The entry nearest the back whose way has this frequency.
fn last_with(entries: &[u8], freq: &[u64], wanted: u64) -> Option<u8>
    ensures { result ≡ find (has_freq freq.now wanted) (reverse entries.now) }
{
    entries
        .iter()
        .rev()
        .copied()
        .find(|&way| has_freq(freq, way, wanted))
}

// LFU's choice: of the ways with the least frequency the one nearest the order's back.
#[tactic(auto, unfolding(crate::specs::Victim::lfu_of))]
fn lfu_way(freq: &[u64], order: [u8; 16]) -> u8
    requires { length freq.now ≤ 16 }
    ensures { result ≡ lfu_of freq.now order }
{
    last_with(&order[..freq.len()], freq, least(freq)).unwrap_or(0)
}

/// Where a sweep ends.
#[derive(Clone, Copy)]
struct Swept {
    way: usize,
    hand: usize,
}

// Clock's choice: from the hand on, set bits are cleared and passed, and the first clear one is taken.
#[tactic(auto, using(crate::proofs::ClockLaws::sweep_look, crate::proofs::ClockLaws::sweep_out))]
fn sweep(ref_bits: &mut [bool], from: usize) -> Swept
    requires { from < length ref_bits.old }
    ensures ends { swept_bits result ref_bits.new ≡ sweep (length ref_bits.old + 1) from ref_bits.old }
    ensures within { (result.way < length ref_bits.old) × (result.hand < length ref_bits.old) }
{
    let ways = ref_bits.len();
    let mut hand = from;
    for _ in 0..ways + 1 {
        let way = hand;
        hand = (hand + 1) % ways;
        if !ref_bits[way] {
            return Swept { way, hand };
        }
        ref_bits[way] = false;
    }
    Swept { way: hand, hand }
}

impl CacheSet {
    // The set gives up the way, and nothing in it moves.
    fn gives(self, way: u8) -> Victim
        ensures { result ≡ record { way = way; set = self } }
    {
        Victim {
            way: way as usize,
            set: self,
        }
    }

    // What a full set gives up.
    #[tactic(auto, unfolding(crate::specs::Victim::chosen))]
    fn choose(self, policy: ReplacementPolicy, freq: &[u64], ref_bits: &mut [bool]) -> Victim
        requires ways { (0 < length freq.now) × (length freq.now ≤ 16) }
        requires hand { self.clock_hand < length ref_bits.old }
        requires lines { length ref_bits.old ≡ length freq.now }
        ensures { with_bits result ref_bits.new ≡ chosen self policy freq.now ref_bits.old }
    {
        let last = freq.len() - 1;
        match policy {
            ReplacementPolicy::Lru => self.gives(self.lru_order[last]),
            ReplacementPolicy::Mru => self.gives(self.lru_order[0]),
            ReplacementPolicy::Fifo => self.gives(self.fifo_order[last]),
            ReplacementPolicy::Random => {
                let rand_state = random_step(self.rand_state);
                Victim {
                    way: rand_state as usize % freq.len(),
                    set: CacheSet { rand_state, ..self },
                }
            }
            ReplacementPolicy::Lfu => self.gives(lfu_way(freq, self.lru_order)),
            ReplacementPolicy::Clock => {
                let swept = sweep(ref_bits, self.clock_hand as usize);
                Victim {
                    way: swept.way,
                    set: CacheSet {
                        clock_hand: swept.hand as u8,
                        ..self
                    },
                }
            }
        }
    }

    /// The way that makes room: the lowest invalid one, and then nothing moves; else what the policy
    /// gives up. Clock clears the bits that its sweep passes.
    #[tactic(auto, unfolding(crate::specs::Victim::victim_of))]
    pub fn find_victim(
        self,
        policy: ReplacementPolicy,
        valid: &[bool],
        freq: &[u64],
        ref_bits: &mut [bool],
    ) -> Victim
        requires ways { (0 < length freq.now) × (length freq.now ≤ 16) }
        requires hand { self.clock_hand < length ref_bits.old }
        requires lines { length ref_bits.old ≡ length freq.now }
        ensures choice { with_bits result ref_bits.new ≡ victim_of self policy valid.now freq.now ref_bits.old }

        // Of a well-formed set it is one of the ways.
        ensures below { is_well_formed self (length freq.now) ≡ true → length valid.now ≡ length freq.now → result.way < length freq.now }
    {
        match free_way(valid) {
            Some(way) => Victim { way, set: self },
            None => self.choose(policy, freq, ref_bits),
        }
    }
}
