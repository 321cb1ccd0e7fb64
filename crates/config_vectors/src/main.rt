//! Replays a fixed list of configurations and addresses and prints what the configuration's functions
//! answer; `stdout` beside this folder has what the unchanged Rust answered. Both were written by
//! `compare vectors config`.
//!
//! A record has 64 bytes: size, line_size, associativity, hit_latency, miss_penalty, assoc_penalty (8
//! bytes each), transfer_width (4), replacement, write_policy, write_alloc, inclusion (1 each), address
//! (4), four zeros, little-endian. A line has the reason; for a valid configuration also the numbers of
//! `show`.
#![tactic(auto)]

ghost use Rattle.std.specs.Prelude.{◌≡◌, length};

use byteorder::{ByteOrder, LittleEndian};
use config::CacheConfig;
use replay::Stdout;
use std::fmt;
use std::fmt::Write;

fn main() {
    let mut list = [0u8; 32768];
    let len = io::read_full(0, &mut list);
    for record in list[..len].chunks_exact(64) {
        let addr = LittleEndian::read_u32(&record[56..]);
        // Output that goes nowhere is no reason to stop.
        let _ = show(replay::config_of(record), addr);
    }
}

fn show(c: CacheConfig, addr: u32) -> fmt::Result {
    let mut out = Stdout;
    if let Err(reason) = c.validate() {
        return writeln!(out, "{}", reason.number());
    }
    // The 0 is a piece of its own, as each number is: where output fails, no more is lost than one piece.
    write!(
        out,
        "{} {} {} {} ",
        0,
        c.num_sets(),
        c.offset_bits(),
        c.index_bits()
    )?;
    write!(out, "{} {} ", c.addr_tag(addr), c.addr_index(addr))?;
    write!(out, "{} {} ", c.addr_offset(addr), c.line_base(addr))?;
    writeln!(
        out,
        "{} {}",
        c.tag_search_cycles(),
        c.line_transfer_cycles()
    )
}
