//! What the programs that replay a list of the Rust's answers share.
#![tactic(auto)]

ghost use Rattle.std.specs.Prelude.{◌≤◌, length};

use byteorder::{ByteOrder, LittleEndian};
use config::CacheConfig;
use std::fmt;

/// Standard output, for `write!` and `writeln!`. A piece that cannot be written is given up, and those after it are
/// tried all the same.
#[derive(Clone, Copy, Debug)]
pub struct Stdout;

impl fmt::Write for Stdout {
    fn write_str(&mut self, text: &str) -> fmt::Result {
        let _ = io::write_all(1, text.as_bytes());
        Ok(())
    }
}

/// The configuration that a record begins with: size, line_size, associativity, hit_latency, miss_penalty,
/// assoc_penalty (8 bytes each), transfer_width (4), replacement, write_policy, write_alloc, inclusion
/// (1 each), little-endian.
pub fn config_of(record: &[u8]) -> CacheConfig
    requires { 56 ≤ length record.now }
{
    CacheConfig {
        size: LittleEndian::read_u64(record),
        line_size: LittleEndian::read_u64(&record[8..]),
        associativity: LittleEndian::read_u64(&record[16..]),
        replacement: record[52],
        write_policy: record[53],
        write_alloc: record[54],
        inclusion: record[55],
        hit_latency: LittleEndian::read_u64(&record[24..]),
        miss_penalty: LittleEndian::read_u64(&record[32..]),
        assoc_penalty: LittleEndian::read_u64(&record[40..]),
        transfer_width: LittleEndian::read_u32(&record[48..]),
    }
}
