// A query that was evaluated, asked about pairs of entries.
ghost use Rattle.std.specs.Prelude.{◌≡◌, ℕ, ◌<◌, ◌≤◌, length, Some, None};
ghost use Rattle.asking.specs.Chosen.{Unaltered, LinesWithin};
ghost use Rattle.asking.specs.declared.room.TheConstants.{LINE, ROOM_ENTRIES};
ghost use Rattle.languages.specs.Cells.{long};
ghost use Rattle.queries.specs.Calls.{pair_rows, found_in};
ghost use Rattle.queries.specs.Conditions.{entries_in, whole_cell};
ghost use Rattle.queries.specs.Taking.{chosen_in};
ghost use Rattle.queries.specs.Pairs.{tallied};
ghost use Rattle.refusals.specs.Rows.{first_refusal};
ghost use Rattle.tables.specs.declared.cell.TheConstants.{MOST_STEPS};

use languages::step::Step;
use queries::Query;
use queries::found::Found;

// A query, its cells, and how many entries it was evaluated over: no question about them is refused.
#[derive(Clone, Copy)]
pub(crate) struct Evaluated<'a> {
    pub query: &'a Query,
    pub cells: &'a [u32],
    pub entries: usize,
    ghost all: { entries ≡ entries_in query.now },
    ghost few: { entries ≤ ROOM_ENTRIES },
    ghost ready: { first_refusal (pair_rows query.now cells.now None) ≡ None },
    ghost unaltered: { Unaltered query.now cells.now },
    ghost short: { LinesWithin LINE query.now cells.now },
}

impl Evaluated<'_> {
    // What joins a pair of entries.
    pub(crate) fn found(self, u: usize, v: usize) -> Found
        requires first { u < self.entries }
        requires second { v < self.entries }
        ensures { result ≡ found_in (whole_cell self.entry.query.now self.entry.cells.now u v) }
    {
        self.query.lookup(self.cells, u, v).unwrap()
    }

    // A path that joins a pair, in a buffer that has room for it.
    pub(crate) fn path<'b>(self, u: usize, v: usize, steps: &'b mut [Step]) -> &'b [Step]
        requires first { u < self.entries }
        requires second { v < self.entries }
        requires short { whole_cell self.query.now self.cells.now u v < long }
        requires room { MOST_STEPS ≤ length steps.old }
        ensures chosen { chosen_in self.entry.query.now self.entry.cells.now u v ≡ Some result.now }
        ensures count { length result.now ≡ whole_cell self.entry.query.now self.entry.cells.now u v }
    {
        let count = self.query.trace(self.cells, u, v, steps).unwrap();
        &steps[..count]
    }

    // How many pairs are joined.
    pub(crate) fn tally(self) -> usize
        ensures { result ≡ tallied (whole_cell self.entry.query.now self.entry.cells.now) self.entry.entries self.entry.entries }
    {
        self.query.tally(self.cells).unwrap()
    }
}
