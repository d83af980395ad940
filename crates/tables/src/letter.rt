// The block of a letter.
ghost use Rattle.std.specs.Prelude.{◌≡◌, ℕ, length};
ghost use Rattle.tables.specs.Blocks.{SamePlace};
ghost use Rattle.tables.specs.Marks.{Marked};

use crate::block::Block;
use crate::cell::NONE;
use graphs::source::Source;

impl Block<'_> {
    // One step for each link of the letter, and no path elsewhere.
    #[tactic(auto, using(crate::proofs::Marking::inside))]
    pub(crate) fn mark<S: Source>(&mut self, source: &S, letter: u8)
        requires { self.old.n ≡ (S.Source.graph source.now).entries }
        ensures place { SamePlace self.old self.new }
        ensures cells { Marked (S.Source.graph source.now) (length (S.Source.graph source.now).places) letter self.old.n self.new.cells.now }
    {
        let n = self.n;
        let cells = &mut *self.cells;
        cells.fill(NONE);
        // A place is known by its number.
        for place in 0..source.places() {
            let Some(link) = source.link_at(place) else {
                continue;
            };
            if link.letter == letter {
                cells[link.from * n + link.to] = 1;
            }
        }
    }
}
