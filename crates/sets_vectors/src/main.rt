//! Replays a fixed list of operations on one set and prints what each leaves; `stdout` beside this
//! folder has what the unchanged Rust left. Both were written by `compare vectors sets`.
//!
//! A record has 384 bytes, little-endian: operation (0 lookup, 1 find_victim, 2 touch, 3 or more
//! install), policy, ways (1 to 16), way, tag (4 bytes), random state (4), hand, three zeros, the two
//! orders (16 bytes each), sixteen tags (4 bytes each), sixteen valid bytes, sixteen reference bytes,
//! sixteen frequencies (8 bytes each), zeros. `lookup`, `find_victim` and `moved` say what a line has.
#![tactic(auto)]

ghost use Rattle.std.specs.Prelude.{◌≡◌, ◌+◌, ◌*◌, ◌<◌, ◌≤◌, length};

use byteorder::{ByteOrder, LittleEndian};
use config::ReplacementPolicy;
use replay::Stdout;
use sets::{CacheSet, LineUse};
use std::fmt;
use std::fmt::Write;

fn main() {
    let mut list = [0u8; 131072];
    let len = io::read_full(0, &mut list);
    for record in list[..len].chunks_exact(384) {
        // Output that goes nowhere is no reason to stop.
        let _ = one(record);
    }
}

/// A set's lines, by their marks.
#[derive(Clone, Copy)]
struct Lines {
    tags: [u32; 16],
    valid: [bool; 16],
    ref_bits: [bool; 16],
    freq: [u64; 16],
}

fn bytes_at(record: &[u8], at: usize) -> [u8; 16]
    requires { at + 16 ≤ length record.now }
{
    let mut bytes = [0; 16];
    bytes.copy_from_slice(&record[at..at + 16]);
    bytes
}

fn bits_at(record: &[u8], at: usize) -> [bool; 16]
    requires { at + 16 ≤ length record.now }
{
    let mut bits = [false; 16];
    for (bit, &byte) in bits.iter_mut().zip(&record[at..at + 16]) {
        *bit = byte != 0;
    }
    bits
}

fn lines_of(record: &[u8]) -> Lines
    requires { length record.now ≡ 384 }
{
    let mut tags = [0; 16];
    LittleEndian::read_u32_into(&record[48..112], &mut tags);
    let mut freq = [0; 16];
    LittleEndian::read_u64_into(&record[144..272], &mut freq);
    Lines {
        tags,
        valid: bits_at(record, 112),
        ref_bits: bits_at(record, 128),
        freq,
    }
}

fn set_of(record: &[u8]) -> CacheSet
    requires { length record.now ≡ 384 }
{
    CacheSet {
        lru_order: bytes_at(record, 16),
        fifo_order: bytes_at(record, 32),
        rand_state: LittleEndian::read_u32(&record[8..]),
        clock_hand: record[12],
    }
}

fn print_entries(order: &[u8]) -> fmt::Result {
    for way in order {
        write!(Stdout, "{way} ")?;
    }
    Ok(())
}

fn print_orders(set: &CacheSet, ways: usize) -> fmt::Result
    requires { ways ≤ 16 }
{
    print_entries(&set.lru_order[..ways])?;
    print_entries(&set.fifo_order[..ways])
}

// `found way`.
fn lookup(lines: &Lines, ways: usize, tag: u32) -> fmt::Result
    requires { ways ≤ 16 }
{
    let way = sets::lookup(&lines.tags[..ways], &lines.valid[..ways], tag);
    writeln!(Stdout, "{} {}", u8::from(way.is_some()), way.unwrap_or(0))
}

// `way hand state`, both orders and the reference bits.
fn find_victim(set: CacheSet, lines: &Lines, ways: usize, policy: ReplacementPolicy) -> fmt::Result
    requires ways { (0 < ways) × (ways ≤ 16) }
    requires hand { set.clock_hand < ways }
{
    let valid = &lines.valid[..ways];
    let freq = &lines.freq[..ways];
    let mut bits = lines.ref_bits;
    let ref_bits = &mut bits[..ways];
    let victim = set.find_victim(policy, valid, freq, ref_bits);
    let after = victim.set;
    write!(
        Stdout,
        "{} {} {} ",
        victim.way, after.clock_hand, after.rand_state
    )?;
    print_orders(&after, ways)?;
    print_bits(ref_bits)
}

// The bits, and the line's end.
fn print_bits(bits: &[bool]) -> fmt::Result {
    let mut space = "";
    for &bit in bits {
        write!(Stdout, "{space}{}", u8::from(bit))?;
        space = " ";
    }
    writeln!(Stdout)
}

// Both orders, the line's frequency and its reference bit.
fn moved(set: CacheSet, line: LineUse, ways: usize) -> fmt::Result
    requires { ways ≤ 16 }
{
    print_orders(&set, ways)?;
    writeln!(Stdout, "{} {}", line.freq, u8::from(line.ref_bit))
}

fn one(record: &[u8]) -> fmt::Result
    requires { length record.now ≡ 384 }
{
    let Ok(policy) = ReplacementPolicy::try_from(record[1]) else {
        return writeln!(Stdout, "no policy");
    };
    let ways = (record[2] as usize).clamp(1, 16);
    let way = record[3] % 16;
    let set = set_of(record);
    let lines = lines_of(record);
    let line = LineUse {
        freq: lines.freq[way as usize],
        ref_bit: lines.ref_bits[way as usize],
    };
    match record[0] {
        0 => lookup(&lines, ways, LittleEndian::read_u32(&record[4..])),
        1 if (set.clock_hand as usize) < ways => find_victim(set, &lines, ways, policy),
        1 => writeln!(Stdout, "no way at the hand"),
        2 => moved(set.touch(way, policy), line.touch(policy), ways),
        _ => moved(set.install(way, policy), LineUse::INSTALLED, ways),
    }
}
