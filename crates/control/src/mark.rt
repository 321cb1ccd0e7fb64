ghost use Rattle.std.specs.Prelude.{◌≡◌, ◌<◌, length};
ghost use Rattle.control.specs.Mark.{mark_at};

use sets::LineUse;

/// The marks of one set's lines, lent: an entry for each way.
#[derive(Clone, Copy)]
pub struct Lines<'a> {
    pub tags: &'a [u32],
    pub valid: &'a [bool],
    pub dirty: &'a [bool],
    pub freq: &'a [u64],
}

/// The marks of one line.
#[repr(C)]
#[derive(Clone, Copy, Debug, PartialEq, Eq, Hash)]
pub struct Mark {
    pub tag: u32,
    pub valid: bool,
    pub dirty: bool,
    pub used: LineUse,
}

impl<'a> Lines<'a> {
    /// The marks of the line in a way.
    pub fn mark(self, ref_bits: &[bool], way: usize) -> Mark
        requires tags { way < length self.tags.now }
        requires valid { way < length self.valid.now }
        requires dirty { way < length self.dirty.now }
        requires freq { way < length self.freq.now }
        requires bits { way < length ref_bits.now }
        ensures { result ≡ mark_at self.entry.tags.now self.entry.valid.now self.entry.dirty.now self.entry.freq.now ref_bits.now way }
    {
        Mark {
            tag: self.tags[way],
            valid: self.valid[way],
            dirty: self.dirty[way],
            used: LineUse {
                freq: self.freq[way],
                ref_bit: ref_bits[way],
            },
        }
    }
}
