//! Replays a fixed list of calls on a level's marks, with no data at all, and prints what each comes
//! to; `stdout` beside this folder has what the unchanged Rust counted and told. Both were written by
//! `compare vectors control`.
//!
//! A record has 64 bytes, little-endian, with the operation at byte 60. 0 opens a level: a configuration
//! as in `config_vectors`, and RAM's length (4 bytes at 56); the line has sets and ways. 1 is an access:
//! kind (0 `read_byte_ro`, 1 data read, 2 or more a store), width, address (4 bytes at 4). 2 to 4 go over
//! all lines: `flush_to_ram`, `writeback_dirty`, `invalidate`. 5 and more is `invalidate_line` of the
//! address. These lines have number, place and the eight counters, and then of the address's line the
//! way and one more, or 0, and whether it is dirty.
#![tactic(auto)]

ghost use Rattle.std.specs.Prelude.{◌≡◌, ◌*◌, ◌≤◌, length};
ghost use Rattle.control.specs.Geometry.{Fits};

use byteorder::{ByteOrder, LittleEndian};
use control::{Access, CacheStats, Geometry, Kind, Marks, Sweep};
use replay::Stdout;
use std::fmt;
use std::fmt::Write;

fn main() {
    let mut list = [0u8; 131072];
    let len = io::read_full(0, &mut list);
    let mut level = None;
    for record in list[..len].chunks_exact(64) {
        level = one(level, record);
    }
}

/// A level with no lines' bytes.
#[derive(Clone, Copy)]
struct Level {
    g: Geometry,
    ram_len: usize,
    marks: Marks,
    stats: CacheStats,
    ghost fits: { Fits g },
    ghost lines: { g.sets * g.ways ≤ 256 },
    ghost ram: { ram_len ≤ 16777216 },
}

// The level after a record. Output that goes nowhere is no reason to stop.
fn one(level: Option<Level>, record: &[u8]) -> Option<Level>
    requires { length record.now ≡ 64 }
{
    if record[60] == 0 {
        return opened(record);
    }
    let mut level = level?;
    let _ = called(&mut level, record);
    Some(level)
}

fn opened(record: &[u8]) -> Option<Level>
    requires { length record.now ≡ 64 }
{
    let g = Geometry::of(replay::config_of(record))?;
    let _ = writeln!(Stdout, "{} {}", g.sets, g.ways);
    Some(Level {
        g,
        ram_len: (LittleEndian::read_u32(&record[56..]) as usize).min(ram::MAX_RAM),
        marks: Marks::fresh(g),
        stats: CacheStats::default(),
    })
}

fn called(level: &mut Level, record: &[u8]) -> fmt::Result
    requires { length record.now ≡ 64 }
{
    let addr = LittleEndian::read_u32(&record[4..]);
    match record[60] {
        1 => accessed(level, access_of(record, addr)),
        2 => swept(level, Sweep::Flush),
        3 => swept(level, Sweep::Writeback),
        4 => swept(level, Sweep::Invalidate),
        _ => {
            level.marks.invalidate_line(level.g, addr);
            told(level, None)?;
            located(level, addr)
        }
    }
}

fn access_of(record: &[u8], addr: u32) -> Access
    requires { length record.now ≡ 64 }
{
    let kind = match record[0] {
        0 => Kind::Fetch,
        1 => Kind::Load,
        _ => Kind::Store,
    };
    Access {
        kind,
        addr,
        width: u32::from(record[1]),
    }
}

fn accessed(level: &mut Level, access: Access) -> fmt::Result {
    if !level
        .marks
        .is_set_formed(level.g, level.g.set(access.addr) as usize)
    {
        return writeln!(Stdout, "no well-formed set");
    }
    let served = level.marks.step(level.g, access, level.ram_len);
    level.stats = level.stats.plus(served.stats);
    told(level, served.plan.refused)?;
    located(level, access.addr)
}

fn swept(level: &mut Level, sweep: Sweep) -> fmt::Result {
    for line in 0..(level.g.sets * level.g.ways) as usize {
        level.marks.sweep(sweep, level.g, line, level.ram_len);
    }
    told(level, None)?;
    writeln!(Stdout, "0 0")
}

// Number, place and the counters.
fn told(level: &Level, refused: Option<u32>) -> fmt::Result {
    let no = if refused.is_some() { 23 } else { 0 };
    let s = level.stats;
    write!(Stdout, "{no} {} ", refused.unwrap_or(0))?;
    write!(
        Stdout,
        "{} {} {} {} ",
        s.hits, s.misses, s.evictions, s.writebacks
    )?;
    write!(Stdout, "{} {} ", s.bytes_loaded, s.bytes_stored)?;
    write!(Stdout, "{} {} ", s.total_cycles, s.ram_write_bytes)
}

// The address's way and one more, or 0, and whether its line is dirty.
fn located(level: &Level, addr: u32) -> fmt::Result {
    let Some(way) = level.marks.locate(level.g, addr) else {
        return writeln!(Stdout, "0 0");
    };
    let line = level.g.set(addr) as usize * level.g.ways as usize + way;
    writeln!(
        Stdout,
        "{} {}",
        way + 1,
        u8::from(level.marks.line(line).dirty)
    )
}
