//! Replays a fixed list of calls on RAM's four functions and prints each answer; `stdout` beside this
//! folder has what the unchanged Rust answered. Both were written by `compare vectors ram`.
//!
//! A record has 12 bytes: kind (0 load8, 1 store8, 2 store16, 3 or more store32), length of RAM (0 to
//! 8), two zeros, address, value, little-endian. RAM byte i starts as 17 × (i + 1). A line has number,
//! place, value, and RAM after the call.
#![tactic(auto)]

ghost use Rattle.std.specs.Prelude.{◌≡◌, length};

use byteorder::{ByteOrder, LittleEndian};
use ram::{Loaded, Refusal};
use replay::Stdout;
use std::fmt;
use std::fmt::Write;

fn main() {
    let mut list = [0u8; 8192];
    let len = io::read_full(0, &mut list);
    for record in list[..len].chunks_exact(12) {
        // Output that goes nowhere is no reason to stop.
        let _ = one(record);
    }
}

/// Which of RAM's functions a record calls.
#[derive(Clone, Copy, Debug, PartialEq, Eq)]
enum Call {
    Load8,
    Store8,
    Store16,
    Store32,
}

impl From<u8> for Call {
    fn from(kind: u8) -> Call {
        match kind {
            0 => Call::Load8,
            1 => Call::Store8,
            2 => Call::Store16,
            _ => Call::Store32,
        }
    }
}

impl Call {
    // What the call answers; a store's value is 0.
    fn run(self, ram: &mut [u8], addr: u32, value: u32) -> Result<u8, Refusal> {
        match self {
            Call::Load8 => ram::load8(ram, addr),
            Call::Store8 => ram::store8(ram, addr, (value % 256) as u8).map(|()| 0),
            Call::Store16 => ram::store16(ram, addr, (value % 65536) as u16).map(|()| 0),
            Call::Store32 => ram::store32(ram, addr, value).map(|()| 0),
        }
    }
}

fn one(record: &[u8]) -> fmt::Result
    requires { length record.now ≡ 12 }
{
    let mut bytes = [17u8, 34, 51, 68, 85, 102, 119, 136];
    let ram = &mut bytes[..record[1].min(8) as usize];
    let addr = LittleEndian::read_u32(&record[4..]);
    let value = LittleEndian::read_u32(&record[8..]);
    let answer = Loaded::from(Call::from(record[0]).run(ram, addr, value));
    let mut out = Stdout;
    write!(out, "{} {} {}", answer.no, answer.place, answer.value)?;
    for byte in ram.iter() {
        write!(out, " {byte}")?;
    }
    writeln!(out)
}
