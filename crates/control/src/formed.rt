ghost use Rattle.std.specs.Prelude.{◌≡◌, ◌+◌, ◌*◌, ◌<◌, ◌≤◌};
ghost use Rattle.control.specs.Geometry.{Fits};
ghost use Rattle.control.specs.Formed.{is_set_formed, is_line_formed, are_sets_formed, are_lines_formed, is_formed};

use crate::{Geometry, Marks};

// Whether a level's marks are ones that a level can have.
impl Marks {
    /// Whether the orders of a set have each way once and its hand is at a way.
    #[tactic(auto, unfolding(crate::specs::Formed::is_set_formed))]
    pub fn is_set_formed(&self, g: Geometry, set: usize) -> bool
        requires fits { Fits g }
        requires lines { (set < 256) × (set * g.ways + g.ways ≤ 256) }
        ensures { result ≡ is_set_formed g self.now set }
    {
        let ways = g.ways as usize;
        self.set(set, set * ways, ways).is_well_formed(ways)
    }

    // Whether the line, if valid, has the tag of an address.
    #[tactic(auto, unfolding(crate::specs::Formed::is_line_formed))]
    fn is_line_formed(&self, g: Geometry, line: usize) -> bool
        requires fits { Fits g }
        requires line { line < 256 }
        ensures { result ≡ is_line_formed g self.now line }
    {
        let (sets, line_size) = (u64::from(g.sets), u64::from(g.line_size));
        !self.valid[line] || u64::from(self.tags[line]) * sets * line_size < 0x1_0000_0000
    }

    // Whether each set is well formed.
    #[tactic(auto, using(crate::proofs::Room::set_within))]
    fn are_sets_formed(&self, g: Geometry) -> bool
        requires fits { Fits g }
        requires lines { g.sets * g.ways ≤ 256 }
        ensures { result ≡ are_sets_formed g self.now g.sets }
    {
        for set in 0..g.sets as usize {
            if !self.is_set_formed(g, set) {
                return false;
            }
        }
        true
    }

    // Whether each of the first lines has the tag of an address.
    fn are_lines_formed(&self, g: Geometry, lines: usize) -> bool
        requires fits { Fits g }
        requires lines { lines ≤ 256 }
        ensures { result ≡ are_lines_formed g self.now lines }
    {
        for line in 0..lines {
            if !self.is_line_formed(g, line) {
                return false;
            }
        }
        true
    }

    /// Whether each set is well formed, and each valid line has the tag of an address.
    #[tactic(auto, unfolding(crate::specs::Formed::is_formed))]
    pub fn is_formed(&self, g: Geometry) -> bool
        requires fits { Fits g }
        requires lines { g.sets * g.ways ≤ 256 }
        ensures { result ≡ is_formed g self.now }
    {
        self.are_sets_formed(g) && self.are_lines_formed(g, g.sets as usize * g.ways as usize)
    }
}
