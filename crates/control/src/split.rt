ghost use Rattle.std.specs.Prelude.{◌≡◌};
ghost use Rattle.control.specs.Geometry.{Fits};
ghost use Rattle.control.specs.Split.{piece_width, pieces, piece_of};

use crate::{Access, Geometry, Kind};

/// What a call asks: it becomes one access, or one of each byte.
#[derive(Clone, Copy, Debug, PartialEq, Eq, Hash)]
pub struct Request {
    pub kind: Kind,
    pub addr: u32,
    /// 1, 2 or 4 bytes.
    pub width: u32,
}

impl Request {
    // How wide each of its accesses is: a read goes byte by byte, and a store that would leave its line.
    #[tactic(auto, unfolding(crate::specs::Split::piece_width))]
    fn piece_width(self, g: Geometry) -> u32
        requires { Fits g }
        ensures { result ≡ piece_width g self }
    {
        let room = g.line_size - g.offset(self.addr);
        if self.kind != Kind::Store || room < self.width {
            1
        } else {
            self.width
        }
    }

    /// How many accesses it becomes.
    #[tactic(auto, unfolding(crate::specs::Split::pieces))]
    pub fn pieces(self, g: Geometry) -> u32
        requires { Fits g }
        ensures { result ≡ pieces g self }
    {
        self.width.checked_div(self.piece_width(g)).unwrap_or(0)
    }

    /// Its access of this number, at rising addresses modulo 2^32.
    #[tactic(auto, unfolding(crate::specs::Split::piece_of))]
    pub fn piece(self, g: Geometry, number: u32) -> Access
        requires { Fits g }
        ensures { result ≡ piece_of g self number }
    {
        Access {
            kind: self.kind,
            addr: self.addr.wrapping_add(number),
            width: self.piece_width(g),
        }
    }
}
