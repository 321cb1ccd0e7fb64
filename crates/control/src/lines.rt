ghost use Rattle.std.specs.Prelude.{◌≡◌, ◌*◌, ◌<◌, ◌≤◌, IfSome};
ghost use Rattle.control.specs.Geometry.{Fits};
ghost use Rattle.control.specs.Lines.{line_mark, with_mark, located, swept_level, swept, without_line, blank, fresh_marks};

use crate::{Geometry, LineStep, Mark, Marks, Sweep};
use sets::{LineUse, fresh_order, store_order};

// A level's lines, one by one.
impl Marks {
    /// The marks of a line.
    pub fn line(&self, line: usize) -> Mark
        requires { line < 256 }
        ensures { result ≡ line_mark self.now line }
    {
        Mark {
            tag: self.tags[line],
            valid: self.valid[line],
            dirty: self.dirty[line],
            used: LineUse {
                freq: self.freq[line],
                ref_bit: self.reference[line],
            },
        }
    }

    // The marks of a line, laid down.
    fn put(&mut self, line: usize, mark: Mark)
        requires { line < 256 }
        ensures { self.new ≡ with_mark self.old line mark }
    {
        self.tags[line] = mark.tag;
        self.valid[line] = mark.valid;
        self.dirty[line] = mark.dirty;
        self.freq[line] = mark.used.freq;
        self.reference[line] = mark.used.ref_bit;
    }

    /// The way that holds the line of an address. Moves nothing.
    #[tactic(auto, unfolding(crate::specs::Lines::located))]
    pub fn locate(&self, g: Geometry, addr: u32) -> Option<usize>
        requires fits { Fits g }
        requires lines { g.sets * g.ways ≤ 256 }
        ensures way { result ≡ located g addr self.now }
        ensures among { IfSome result (λ way. way < g.ways) }
    {
        let ways = g.ways as usize;
        let base = g.set(addr) as usize * ways;
        let tags = &self.tags[..];
        let valid = &self.valid[..];
        sets::lookup(
            &tags[base..base + ways],
            &valid[base..base + ways],
            g.tag(addr),
        )
    }

    /// `invalidate_line`: the line of an address goes, if a way holds it. Its bytes go with it.
    #[tactic(auto, unfolding(crate::specs::Lines::without_line))]
    pub fn invalidate_line(&mut self, g: Geometry, addr: u32)
        requires fits { Fits g }
        requires lines { g.sets * g.ways ≤ 256 }
        ensures { self.new ≡ without_line g addr self.old }
    {
        if let Some(way) = self.locate(g, addr) {
            let line = g.set(addr) as usize * g.ways as usize + way;
            self.put(line, self.line(line).dropped());
        }
    }

    /// A sweep's step at a line.
    #[tactic(auto, unfolding(crate::specs::Lines::swept_level))]
    pub fn sweep(&mut self, sweep: Sweep, g: Geometry, line: usize, ram_len: usize) -> LineStep
        requires fits { Fits g }
        requires line { line < 256 }
        ensures { swept result self.new ≡ swept_level sweep g line ram_len self.old }
    {
        let mark = self.line(line);
        let set = line as u32 / g.ways;
        let step = sweep.line(g, g.line_base(mark.tag, set), mark, ram_len);
        self.put(line, step.mark);
        step
    }

    /// No marks at all: all 0.
    pub fn blank() -> Marks
        ensures { result ≡ blank }
    {
        Marks {
            tags: [0; 256],
            valid: [false; 256],
            dirty: [false; 256],
            reference: [false; 256],
            freq: [0; 256],
            lru_order: [0; 256],
            fifo_order: [0; 256],
            clock_hand: [0; 256],
            rand_state: [0; 256],
        }
    }

    /// Fresh marks: every line empty, orders as the ways count, and what stands past the last set 0.
    #[tactic(auto, using(crate::proofs::Opening::one_more), unfolding(crate::specs::Lines::opened))]
    pub fn fresh(g: Geometry) -> Marks
        requires fits { Fits g }
        requires lines { g.sets * g.ways ≤ 256 }
        ensures { result ≡ fresh_marks g }
    {
        let ways = g.ways as usize;
        let mut marks = Marks::blank();
        for set in 0..g.sets as usize {
            let order = fresh_order(ways);
            store_order(&mut marks.lru_order, set * ways, order, ways);
            store_order(&mut marks.fifo_order, set * ways, order, ways);
            marks.rand_state[set] = 0xDEAD_BEEF;
        }
        marks
    }
}
