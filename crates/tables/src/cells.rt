// The cells of an expression's parts, in a table that is lent for reading.
ghost use Rattle.std.specs.Prelude.{◌≡◌, ℕ, ◌≤◌, true, length, nat_le};
ghost use Rattle.expressions.specs.Numbering.{well_formed};
ghost use Rattle.tables.specs.Layout.{cells_needed};

use crate::cell::NONE;
use expressions::part::{Part, Parts};
use refusals::Refusal;

// Whether a table of so many cells has those of all parts, among n entries. Where their number passes the machine's numbers, none has.
pub(crate) fn has_room(parts: &[Part], n: usize, cells: usize) -> bool
    requires { 1 ≤ length parts.now }
    ensures { result ≡ nat_le (cells_needed parts.now n) cells }
{
    let Some(square) = n.checked_mul(n) else {
        return false;
    };
    square
        .checked_mul(parts.len())
        .is_some_and(|needed| needed <= cells)
}

/// The parts of an expression, and a table that has the cells of each, among n entries. The table may be altered: its cells may hold anything.
#[derive(Clone, Copy)]
pub struct Cells<'a> {
    pub parts: &'a [Part],
    pub table: &'a [u32],
    pub n: usize,
    ghost some: { 1 ≤ length parts.now },
    ghost formed: { well_formed 0 parts.now ≡ true },
    ghost room: { cells_needed parts.now n ≤ length table.now },
}

impl<'a> Cells<'a> {
    ghost use Rattle.std.specs.Prelude.{◌-◌, ◌*◌, ◌<◌, ◌&&◌, [], ◌∷◌, if◌then◌else◌, nat_lt, slice_index};
    ghost use Rattle.expressions.specs.Storing.{parts_of};
    ghost use Rattle.languages.specs.Cells.{none};
    ghost use Rattle.refusals.specs.Rows.{ByRows};
    ghost use Rattle.refusals.specs.declared.Refusal.TheVariants.{TableCut};
    ghost use Rattle.tables.specs.Layout.{cell_at};
    ghost use Rattle.tables.specs.Reading.{Over, Whole};

    /// The cells of the parts in a table, which has to be long enough. Where their number passes the machine's numbers, no table is.
    pub fn over(parts: &'a Parts, table: &'a [u32], n: usize) -> Result<Cells<'a>, Refusal>
        ensures { ByRows ((nat_lt (length table.now) (cells_needed (parts_of parts.now) n), 43, 0, TableCut) ∷ []) result (Over (parts_of parts.now) table.now n) }
    {
        let parts = parts.as_slice();
        if !has_room(parts, n, table.len()) {
            return Err(Refusal::TableCut);
        }
        Ok(Cells { parts, table, n })
    }

    /// What part q tells of u and v; a part or an entry that is not there has no path.
    pub fn cell(&self, q: usize, u: usize, v: usize) -> u32
        ensures { result ≡ (if nat_lt q (length self.now.parts.now) && (nat_lt u self.now.n && nat_lt v self.now.n) then cell_at self.now.parts.now self.now.table.now self.now.n q u v else none) }
    {
        if q < self.parts.len() && u < self.n && v < self.n {
            self.table[q * (self.n * self.n) + (u * self.n + v)]
        } else {
            NONE
        }
    }

    /// What the whole expression, which is the last part, tells of u and v.
    pub fn of_whole(&self, u: usize, v: usize) -> u32
        ensures { result ≡ (if nat_lt u self.now.n && nat_lt v self.now.n then cell_at self.now.parts.now self.now.table.now self.now.n (length self.now.parts.now - 1) u v else none) }
    {
        self.cell(self.parts.len() - 1, u, v)
    }

    /// The cells of the whole expression, which is the last part: n rows of n.
    pub fn whole(&self) -> &'a [u32]
        ensures { Whole self.now result.now }
    {
        let square = self.n * self.n;
        &self.table[(self.parts.len() - 1) * square..][..square]
    }
}
