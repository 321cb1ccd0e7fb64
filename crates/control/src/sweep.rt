ghost use Rattle.std.specs.Prelude.{◌≡◌, ◌≤◌};
ghost use Rattle.control.specs.Sweep.{swept_line, dropped_line, is_stored};

use crate::plan::inside;
use crate::{Geometry, Mark};

/// What goes over every line of a level, in set and way order.
#[derive(Clone, Copy, Debug, PartialEq, Eq, Hash)]
pub enum Sweep {
    /// `flush_to_ram`: dirty lines go to RAM, and every line goes.
    Flush,
    /// `writeback_dirty`: dirty lines go to RAM and stay, clean.
    Writeback,
    /// `invalidate`: every line goes, dirty ones too.
    Invalidate,
}

/// What a sweep does to one line: bytes of it that go to RAM at `back_to`, and its marks after it.
#[derive(Clone, Copy, Debug, PartialEq, Eq, Hash)]
pub struct LineStep {
    pub back: u32,
    pub back_to: u32,
    pub mark: Mark,
}

impl Mark {
    /// The line is no longer there. Its tag and use stay.
    pub fn dropped(self) -> Self
        ensures { result ≡ dropped_line self }
    {
        Mark {
            valid: false,
            dirty: false,
            ..self
        }
    }
}

impl Sweep {
    // Whether the sweep stores the line.
    fn stores(self, mark: Mark) -> bool
        ensures { result ≡ is_stored self mark }
    {
        match self {
            Sweep::Flush | Sweep::Writeback => mark.valid && mark.dirty,
            Sweep::Invalidate => false,
        }
    }

    /// The sweep's step at a line that begins at `base`. Bytes outside RAM are passed over.
    #[tactic(auto, unfolding(crate::specs::Sweep::swept_line))]
    pub fn line(self, g: Geometry, base: u32, mark: Mark, ram_len: usize) -> LineStep
        ensures { result ≡ swept_line self g base mark ram_len }
    {
        let stores = self.stores(mark);
        LineStep {
            back: if stores {
                inside(ram_len, base, g.line_size)
            } else {
                0
            },
            back_to: base,
            mark: match self {
                Sweep::Flush | Sweep::Invalidate => mark.dropped(),
                Sweep::Writeback => Mark {
                    dirty: mark.dirty && !stores,
                    ..mark
                },
            },
        }
    }
}
