// The joining of two blocks.
ghost use Rattle.std.specs.Prelude.{◌≡◌, ℕ, ◌*◌, length, slice_index, EachIndex};
ghost use Rattle.languages.specs.Algebra.{sat_add, least_below};
ghost use Rattle.tables.specs.Blocks.{block_cell, Holds, SamePlace};

use crate::block::Block;
use crate::cell::NONE;
use crate::relax::lower_row;

// One row: its row of the left block leads to every middle, and the right block on from there.
fn join_row(row: &mut [u32], left: &[u32], right: &[u32], n: usize)
    requires row { length row.old ≡ n }
    requires left { length left.now ≡ n }
    requires right { length right.now ≡ n * n }
    ensures { EachIndex row.new (λ v. slice_index row.new v ≡ least_below n (λ m. sat_add (slice_index left.now m) (block_cell n right.now m v))) }
{
    row.fill(NONE);
    for (m, first) in left.iter().enumerate() {
        lower_row(row, *first, &right[m * n..(m + 1) * n]);
    }
}

impl Block<'_> {
    // Each cell is the least over every middle.
    pub(crate) fn join(&mut self, left: &[u32], right: &[u32])
        requires left { length left.now ≡ self.old.n * self.old.n }
        requires right { length right.now ≡ self.old.n * self.old.n }
        ensures place { SamePlace self.old self.new }
        ensures cells { Holds self.old.n self.new.cells.now (λ u v. least_below self.old.n (λ m. sat_add (block_cell self.old.n left.now u m) (block_cell self.old.n right.now m v))) }
    {
        let n = self.n;
        let cells = &mut *self.cells;
        // Rows are cut out by number, as in `relax_rows`.
        for u in 0..n {
            join_row(
                &mut cells[u * n..(u + 1) * n],
                &left[u * n..(u + 1) * n],
                right,
                n,
            );
        }
    }
}
