//! RAM's four functions, over a lent slice of bytes: `load8`, `store8`, `store16`, `store32` of
//! memory.rs. They have no `requires`: what cannot be served is refused, by a `Refusal` that has a
//! number and a place.
//!
//! Beside them what the level above rests on: `reach`, how far a run of bytes reaches into RAM without
//! looking at a byte, and `copy`, the one bulk move.
#![tactic(auto)]

ghost use Rattle.std.specs.Prelude.{Some, ◌≡◌, ◌+◌, ◌≤◌, ◌<◌, length, drop};
ghost use Rattle.std.proofs.Math.Seq.{paste};
ghost use Rattle.ram.specs.Ram.{
  reach_of,
  bytes_of,
  number_of,
  place_of,
  text_of,
  loaded,
  loaded_of,
  stored,
  stored_of,
  storing,
};

use std::error::Error;
use std::fmt;

/// The longest RAM that a call is given, in bytes.
pub const MAX_RAM: usize = 16_777_216;

/// Why a call on RAM is refused.
#[derive(Clone, Copy, Debug, PartialEq, Eq, Hash)]
pub enum Refusal {
    /// RAM is longer than `MAX_RAM`. Nothing is touched.
    RamTooLong,
    /// A byte outside RAM is needed: the first such address. The bytes before it stay stored.
    Outside(u32),
}

impl Refusal {
    /// The number that a refusal has wherever answers are numbers: 22 or 23.
    pub fn number(self) -> u8
        ensures { result ≡ number_of self }
    {
        match self {
            Refusal::RamTooLong => 22,
            Refusal::Outside(_) => 23,
        }
    }

    /// The address that is told, and 0 where none is.
    pub fn place(self) -> u32
        ensures { result ≡ place_of self }
    {
        match self {
            Refusal::RamTooLong => 0,
            Refusal::Outside(addr) => addr,
        }
    }
}

impl fmt::Display for Refusal {
    ghost output = { λ refusal. Some (text_of refusal) };

    fn fmt<W: fmt::Write>(&self, f: &mut fmt::Formatter<W>) -> fmt::Result {
        match self {
            Refusal::RamTooLong => f.write_str("RAM is longer than 16777216 bytes"),
            Refusal::Outside(addr) => write!(f, "address {addr} lies outside RAM"),
        }
    }
}

impl Error for Refusal {}

/// What a load answers where answers are numbers, as in C: 0 and the byte, or a refusal's number and
/// place, and value 0.
#[repr(C)]
#[derive(Clone, Copy, Debug, PartialEq, Eq, Hash)]
pub struct Loaded {
    pub no: u8,
    pub place: u32,
    pub value: u8,
}

impl From<Result<u8, Refusal>> for Loaded {
    ghost from_gives = { λ answer as_numbers. as_numbers ≡ loaded_of answer };

    fn from(answer: Result<u8, Refusal>) -> Loaded {
        // Field by field: a match would cost a load that is served a jump.
        Loaded {
            no: answer.err().map_or(0, |refusal| refusal.number()),
            place: answer.err().map_or(0, |refusal| refusal.place()),
            value: answer.unwrap_or(0),
        }
    }
}

/// What a store answers where answers are numbers, as in C: 0, or a refusal's number and place.
#[repr(C)]
#[derive(Clone, Copy, Debug, PartialEq, Eq, Hash)]
pub struct Stored {
    pub no: u8,
    pub place: u32,
}

impl From<Result<(), Refusal>> for Stored {
    ghost from_gives = { λ answer as_numbers. as_numbers ≡ stored_of answer };

    fn from(answer: Result<(), Refusal>) -> Stored {
        match answer {
            Ok(()) => Stored { no: 0, place: 0 },
            Err(refusal) => Stored {
                no: refusal.number(),
                place: refusal.place(),
            },
        }
    }
}

/// How many of `n` bytes from `addr` on lie inside `len`.
#[tactic(auto, unfolding(crate::specs::Ram::reach_of))]
pub fn reach(len: usize, addr: u32, n: usize) -> usize
    ensures { result ≡ reach_of len addr n }
{
    n.min(len.saturating_sub(addr as usize))
}

/// `n` bytes of `src` from `from` on are laid into `dst` from `at` on; with n = 0 nothing happens,
/// wherever `at` and `from` stand.
#[tactic(auto, using(crate::proofs::CopyLaws::turn))]
pub fn copy(dst: &mut [u8], at: usize, src: &[u8], from: usize, n: usize)
    requires { (0 < n → at + n ≤ length dst.old) × (0 < n → from + n ≤ length src.now) }
    ensures { dst.new ≡ paste dst.old at (drop from src.now) n }
{
    // Up to four bytes, as many as a value has, take less time one by one than by a call.
    if n <= 4 {
        for i in 0..n {
            dst[at + i] = src[from + i];
        }
    } else {
        dst[at..at + n].copy_from_slice(&src[from..from + n]);
    }
}

/// The byte at `addr`.
#[tactic(auto, unfolding(crate::specs::Ram::loaded))]
pub fn load8(ram: &[u8], addr: u32) -> Result<u8, Refusal>
    ensures { loaded_of result ≡ loaded ram.now addr }
{
    if MAX_RAM < ram.len() {
        return Err(Refusal::RamTooLong);
    }
    ram.get(addr as usize)
        .copied()
        .ok_or(Refusal::Outside(addr))
}

/// One byte is stored.
#[tactic(auto, using(crate::proofs::Widths::stored_first))]
pub fn store8(ram: &mut [u8], addr: u32, value: u8) -> Result<(), Refusal>
    ensures { storing (stored_of result) ram.new ≡ stored ram.old addr (bytes_of value) 1 }
{
    store(ram, addr, &[value])
}

/// Two bytes are stored, the low one first; the first stays where the second lies outside.
#[tactic(auto, using(crate::proofs::Widths::stored_first))]
pub fn store16(ram: &mut [u8], addr: u32, value: u16) -> Result<(), Refusal>
    ensures { storing (stored_of result) ram.new ≡ stored ram.old addr (bytes_of value) 2 }
{
    store(ram, addr, &value.to_le_bytes())
}

/// Four bytes are stored, the low one first; those before the first that lies outside stay.
pub fn store32(ram: &mut [u8], addr: u32, value: u32) -> Result<(), Refusal>
    ensures { storing (stored_of result) ram.new ≡ stored ram.old addr (bytes_of value) 4 }
{
    store(ram, addr, &value.to_le_bytes())
}

/// A value's bytes, the lowest first.
pub fn bytes_of(v: u32) -> [u8; 4]
    ensures { result ≡ bytes_of v }
{
    v.to_le_bytes()
}

// The three widths in one: the bytes are stored as far as RAM reaches.
#[tactic(auto, unfolding(crate::specs::Ram::reach_of, crate::specs::Ram::stored))]
fn store(ram: &mut [u8], addr: u32, bytes: &[u8]) -> Result<(), Refusal>
    ensures { storing (stored_of result) ram.new ≡ stored ram.old addr bytes.now (length bytes.now) }
{
    if MAX_RAM < ram.len() {
        return Err(Refusal::RamTooLong);
    }
    let got = reach(ram.len(), addr, bytes.len());
    copy(ram, addr as usize, bytes, 0, got);
    if got < bytes.len() {
        return Err(Refusal::Outside(addr + got as u32));
    }
    Ok(())
}

#[cfg(test)]
mod tests {
    use super::*;

    #[test]
    fn stores_what_lies_inside(rt: HostRuntime) {
        let mut ram = [1u8, 2, 3];
        assert_eq!(rt; store32(&mut ram, 1, 0x0403_0201), Err(Refusal::Outside(3)));
        assert_eq!(rt; ram, [1, 1, 2]);
        assert_eq!(rt; load8(&ram, 2), Ok(2));
    }
}
