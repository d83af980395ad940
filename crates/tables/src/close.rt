// The closing of a repeat.
ghost use Rattle.std.specs.Prelude.{◌≡◌, ℕ, ◌<◌};
ghost use Rattle.languages.specs.Algebra.{closed, through};
ghost use Rattle.tables.specs.Blocks.{cell_in, Holds, SamePlace, Small};

use crate::block::Block;
use crate::cell::MOST_ENTRIES;
use crate::relax::relax_row;

impl Block<'_> {
    // Goes over the middle k with every row.
    fn relax_rows(&mut self, k: usize)
        requires middle { k < self.old.n }
        requires small { Small self.old }
        ensures place { SamePlace self.old self.new }
        ensures cells { Holds self.old.n self.new.cells.now (through k (cell_in self.old)) }
    {
        let n = self.n;
        let cells = &mut *self.cells;
        // A copy, since the row lies in the block that is written.
        let mut middle = [0; MOST_ENTRIES];
        middle[..n].copy_from_slice(&cells[k * n..(k + 1) * n]);
        // Rows are cut out by number: of what `chunks_mut` lends a proof knows no cell.
        for u in 0..n {
            let first = cells[u * n + k];
            relax_row(&mut cells[u * n..(u + 1) * n], first, &middle[..n]);
        }
    }

    // Goes over every entry as a middle.
    pub(crate) fn close(&mut self)
        requires { Small self.old }
        ensures place { SamePlace self.old self.new }
        ensures cells { Holds self.old.n self.new.cells.now (closed self.old.n (cell_in self.old)) }
    {
        for k in 0..self.n {
            self.relax_rows(k);
        }
    }
}
