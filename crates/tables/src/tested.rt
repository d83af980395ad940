// The blocks of tests.
ghost use Rattle.std.specs.Prelude.{◌≡◌, ℕ, ◌*◌, length};
ghost use Rattle.tables.specs.Blocks.{KeptWhere, SamePlace};

use crate::block::Block;
use crate::cell::NONE;

impl Block<'_> {
    // The cells of another block are kept where the two entries pass, and tell of no path elsewhere.
    pub(crate) fn keep_where<F: Fn(usize, usize) -> bool>(&mut self, before: &[u32], passes: F)
        requires before { length before.now ≡ self.old.n * self.old.n }
        requires callable { F.IsAlwaysCallable passes }
        ensures place { SamePlace self.old self.new }
        ensures cells { KeptWhere self.old.n (F.post passes) before.now self.new.cells.now }
    {
        let n = self.n;
        let cells = &mut *self.cells;
        // By both entries: over the cells alone each would be divided for.
        for u in 0..n {
            for v in 0..n {
                let at = u * n + v;
                cells[at] = if passes(u, v) { before[at] } else { NONE };
            }
        }
    }
}
