// The condition that a query is in.
ghost use Rattle.std.specs.Prelude.{◌≡◌, ℕ, [], ◌∷◌, length, nat_lt};
ghost use Rattle.expressions.specs.Storing.{parts_of};
ghost use Rattle.refusals.specs.Rows.{ByRows};
ghost use Rattle.refusals.specs.declared.Refusal.TheVariants.{TableCut};
ghost use Rattle.tables.specs.Layout.{cells_needed};
ghost use Rattle.tables.specs.Reading.{Over};

use expressions::part::Parts;
use refusals::Refusal;
use tables::cells::Cells;

/// The parts of an expression, and how many entries they were evaluated over.
#[derive(Clone, Copy)]
pub struct Evaluation {
    pub parts: Parts,
    pub entries: usize,
}

impl Evaluation {
    // Its cells in a table, which has to be long enough.
    pub(crate) fn cells<'a>(&'a self, table: &'a [u32]) -> Result<Cells<'a>, Refusal>
        ensures { ByRows ((nat_lt (length table.now) (cells_needed (parts_of self.now.parts) self.now.entries), 43, 0, TableCut) ∷ []) result (Over (parts_of self.now.parts) table.now self.now.entries) }
    {
        Cells::over(&self.parts, table, self.entries)
    }
}

/// Blank at first; parsed, with the parts of an expression; or evaluated.
#[derive(Clone, Copy)]
pub enum Condition {
    Blank,
    Parsed(Parts),
    Evaluated(Evaluation),
}
