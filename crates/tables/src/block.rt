// Blocks: the cells of one part.
ghost use Rattle.std.specs.Prelude.{◌≡◌, ℕ, ◌*◌, ◌≤◌, min, length, if◌then◌else◌, nat_eq};
ghost use Rattle.languages.specs.Cells.{none};
ghost use Rattle.tables.specs.Limits.{most_entries};

use crate::cell::NONE;

// The cells of one part: a row of n for each of n entries.
#[derive(Drop)]
pub(crate) struct Block<'a> {
    pub(crate) cells: &'a mut [u32],
    pub(crate) n: usize,
    ghost few: { n ≤ most_entries },
    ghost square: { length cells.now ≡ n * n },
}

// The methods that pass on a part of the cells name the slice first: of a slice in a field that is passed on, a proof knows only its length.
// Blocks that are read are slices, whose length is asked: with a struct for them too it would be asked that the two are of as many entries.
impl Block<'_> {
    ghost use Rattle.tables.specs.Blocks.{block_cell, cell_in, Holds, SamePlace};

    // No path anywhere.
    pub(crate) fn clear(&mut self)
        ensures place { SamePlace self.old self.new }
        ensures cells { Holds self.old.n self.new.cells.now (λ u v. none) }
    {
        self.cells.fill(NONE);
    }

    // The cells of another block.
    pub(crate) fn copy_from(&mut self, before: &[u32])
        requires { length before.now ≡ self.old.n * self.old.n }
        ensures place { SamePlace self.old self.new }
        ensures cells { self.new.cells.now ≡ before.now }
    {
        self.cells.copy_from_slice(before);
    }

    // The lesser of the cells of two other blocks.
    pub(crate) fn lesser(&mut self, left: &[u32], right: &[u32])
        requires left { length left.now ≡ self.old.n * self.old.n }
        requires right { length right.now ≡ self.old.n * self.old.n }
        ensures place { SamePlace self.old self.new }
        ensures cells { Holds self.old.n self.new.cells.now (λ u v. min (block_cell self.old.n left.now u v) (block_cell self.old.n right.now u v)) }
    {
        let cells = &mut *self.cells;
        for (i, cell) in cells.iter_mut().enumerate() {
            *cell = left[i].min(right[i]);
        }
    }

    // No step from each entry to itself.
    pub(crate) fn zero_diagonal(&mut self)
        ensures place { SamePlace self.old self.new }
        ensures cells { Holds self.old.n self.new.cells.now (λ u v. (if nat_eq u v then 0 else cell_in self.old u v)) }
    {
        let n = self.n;
        let cells = &mut *self.cells;
        // By index: of `step_by` over `iter_mut` a proof knows no element.
        for u in 0..n {
            cells[u * n + u] = 0;
        }
    }
}
