// The evaluation of an expression, part by part.
ghost use Rattle.std.specs.Prelude.{◌≡◌, ℕ, ◌+◌, ◌*◌, ◌<◌, ◌≤◌, true, length, take, drop};
ghost use Rattle.expressions.specs.Grammar.{most_parts};
ghost use Rattle.expressions.specs.Numbering.{part_expr, well_formed};
ghost use Rattle.expressions.specs.Storing.{parts_of};
ghost use Rattle.languages.specs.Algebra.{Cells};
ghost use Rattle.languages.specs.Cells.{Lengths};
ghost use Rattle.tables.specs.Blocks.{block_cell, SamePlace};
ghost use Rattle.tables.specs.Limits.{most_entries};
ghost use Rattle.tables.specs.Layout.{start_of, cells_needed};
ghost use Rattle.tables.specs.Tables.{AllShow, Filled, Fills};

use crate::block::Block;
use crate::cell::MOST_ENTRIES;
use crate::cells::has_room;
use expressions::part::{Part, Parts};
use graphs::source::Source;
use refusals::Refusal;

// The block of part k among those that are filled.
fn block_of(done: &[u32], k: usize, size: usize) -> &[u32]
    requires { k * size + size ≤ length done.now }
    ensures cells { result.now ≡ take size (drop (k * size) done.now) }
    ensures size { length result.now ≡ size }
{
    &done[k * size..][..size]
}

impl Block<'_> {
    // Fills the block of part q from those of the parts before it.
    fn fill<S: Source>(&mut self, source: &S, parts: &[Part], q: usize, done: &[u32])
        requires entries { self.old.n ≡ (S.Source.graph source.now).entries }
        requires is_part { q < length parts.now }
        requires formed { well_formed 0 parts.now ≡ true }
        requires done { length done.now ≡ start_of parts.now self.old.n q }
        requires shown { AllShow (S.Source.graph source.now) parts.now q done.now }
        ensures place { SamePlace self.old self.new }
        ensures cells { Cells self.old.n (Lengths (S.Source.graph source.now) (part_expr parts.now q)) (block_cell self.old.n self.new.cells.now) }
    {
        let size = self.n * self.n;
        // The block of the part just before, where there is one.
        let before = &done[done.len().saturating_sub(size)..];
        match parts[q] {
            Part::Epsilon => {
                self.clear();
                self.zero_diagonal();
            }
            Part::Letter(letter) => self.mark(source, letter),
            Part::Either { left } => self.lesser(block_of(done, left, size), before),
            Part::Join { left } => self.join(block_of(done, left, size), before),
            Part::Plus => {
                self.copy_from(before);
                self.close();
            }
            Part::Star => {
                self.copy_from(before);
                self.zero_diagonal();
                self.close();
            }
            Part::Same => self.keep_where(before, |u, v| source.same(u, v)),
            Part::Differ => self.keep_where(before, |u, v| !source.same(u, v)),
        }
    }
}

// Fills the block of every part.
fn fill_blocks<S: Source>(source: &S, parts: &[Part], table: &mut [u32], n: usize)
    requires entries { n ≡ (S.Source.graph source.now).entries }
    requires few { n ≤ most_entries }
    requires short { length parts.now ≤ most_parts }
    requires formed { well_formed 0 parts.now ≡ true }
    requires room { cells_needed parts.now n ≤ length table.old }
    ensures { Filled (S.Source.graph source.now) parts.now (length parts.now) table.old table.new }
{
    let size = n * n;
    // The number of a part tells where the table is split.
    for q in 0..parts.len() {
        let (done, rest) = table.split_at_mut(q * size);
        let cells = &mut rest[..size];
        let mut block = Block { cells, n };
        block.fill(source, parts, q, done);
    }
}

/// Evaluates the parts of an expression over a source, and tells how many entries this has; or is refused, and changes nothing.
pub fn evaluate<S: Source>(source: &S, parts: &Parts, table: &mut [u32]) -> Result<usize, Refusal>
    ensures { Fills (S.Source.graph source.now) (parts_of parts.now) table.old table.new result }
{
    let n = source.entries();
    if n > MOST_ENTRIES {
        return Err(Refusal::SourceTooLarge);
    }
    let parts = parts.as_slice();
    if !has_room(parts, n, table.len()) {
        return Err(Refusal::TableTooShort);
    }
    fill_blocks(source, parts, table, n);
    Ok(n)
}
