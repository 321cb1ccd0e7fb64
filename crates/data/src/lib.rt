//! Data carries a plan out on the two lent buffers: RAM, and the bytes of the level's lines. It decides
//! nothing: what a plan does not do has a count of 0.
#![tactic(auto)]

ghost use Rattle.std.specs.Prelude.{◌≡◌, ◌+◌, ◌<◌, ◌≤◌, length, drop};
ghost use Rattle.std.proofs.Math.Seq.{paste};
ghost use Rattle.data.specs.Carry.{moved, carried};

use control::{LineStep, Plan};

/// Where a plan's bytes lie: what follows from the access and its line.
#[derive(Clone, Copy, Debug, PartialEq, Eq, Hash)]
pub struct Places {
    /// The access's address in RAM, and the base of its line there.
    pub addr: u32,
    pub base: u32,
    /// Where the line begins in the line bytes, and where the access lies in it.
    pub line: usize,
    pub cell: usize,
}

/// The plan's moves, in their order, and the byte that is read, or 0.
#[tactic(auto, unfolding(crate::specs::Carry::carried))]
pub fn carry_out(plan: Plan, at: Places, ram: &mut [u8], lines: &mut [u8], value: u32) -> u8
    requires store { (plan.store ≤ 4) × (0 < plan.store → at.addr + plan.store ≤ length ram.old) }
    requires back_from { 0 < plan.back → at.line + plan.back ≤ length lines.old }
    requires back_to { 0 < plan.back → plan.back_to + plan.back ≤ length ram.old }
    requires fill_from { 0 < plan.fill → at.base + plan.fill ≤ length ram.old }
    requires fill_to { 0 < plan.fill → at.line + plan.fill ≤ length lines.old }
    requires put { (plan.put ≤ 4) × (0 < plan.put → at.cell + plan.put ≤ length lines.old) }
    requires read { 0 < plan.read → at.cell < length lines.old }
    requires load { 0 < plan.load → at.addr < length ram.old }
    ensures { moved ram.new lines.new result ≡ carried plan at ram.old lines.old value }
{
    let bytes = ram::bytes_of(value);
    ram::copy(ram, at.addr as usize, &bytes, 0, plan.store as usize);
    ram::copy(
        ram,
        plan.back_to as usize,
        lines,
        at.line,
        plan.back as usize,
    );
    ram::copy(lines, at.line, ram, at.base as usize, plan.fill as usize);
    ram::copy(lines, at.cell, &bytes, 0, plan.put as usize);
    if plan.read > 0 {
        lines[at.cell]
    } else if plan.load > 0 {
        ram[at.addr as usize]
    } else {
        0
    }
}

/// A sweep's step at a line that begins at `line` in the line bytes: those of its bytes that RAM takes.
pub fn store_line(step: LineStep, line: usize, ram: &mut [u8], lines: &[u8])
    requires from { 0 < step.back → line + step.back ≤ length lines.now }
    requires to { 0 < step.back → step.back_to + step.back ≤ length ram.old }
    ensures { ram.new ≡ paste ram.old step.back_to (drop line lines.now) step.back }
{
    ram::copy(ram, step.back_to as usize, lines, line, step.back as usize);
}
