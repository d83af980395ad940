// The parts of a text that is being read.
ghost use Rattle.std.specs.Prelude.{◌≡◌, ℕ, ◌+◌, ◌-◌, ◌*◌, ◌<◌, [], MatchOption};
ghost use Rattle.expressions.specs.Exprs.{Expr};
ghost use Rattle.expressions.specs.Grammar.{most_bytes, most_parts};
ghost use Rattle.expressions.specs.Numbering.{parts_from};
ghost use Rattle.expressions.specs.Reads.{Kept, Pushed};
ghost use Rattle.expressions.specs.Storing.{Stored};

use crate::part::{MOST_PARTS, Part, Parts};

// The parts so far, at the front of the list. The count goes on past the list, where nothing more is kept: too many parts are refused only if all of the text is an expression.
#[derive(Drop)]
pub(crate) struct Draft {
    list: [Part; MOST_PARTS],
    count: usize,
}

impl Draft {
    pub(crate) fn new() -> Self
        ensures { Kept result [] }
    {
        Draft {
            list: [Part::Epsilon; MOST_PARTS],
            count: 0,
        }
    }

    // One part more.
    pub(crate) fn push(&mut self, part: Part)
        requires { self.old.count < 2 * most_bytes }
        ensures { Pushed self.old self.new part }
    {
        if self.count < MOST_PARTS {
            self.list[self.count] = part;
        }
        self.count += 1;
    }

    // The number of the part that came last.
    pub(crate) fn last(&self) -> usize
        requires { 0 < self.now.count }
        ensures { result ≡ self.now.count - 1 }
    {
        self.count - 1
    }

    // The finished parts of an expression, if there was room for all. (In a closure for `then`, what `Parts::new` asks is not known.)
    pub(crate) fn finish(self) -> Option<Parts>
        requires { (e : Expr) × Kept self (parts_from 0 e) }
        ensures { MatchOption result (most_parts < self.count) (λ p. (e : Expr) → Kept self (parts_from 0 e) → Stored e p) }
    {
        if self.count > MOST_PARTS {
            return None;
        }
        Some(Parts::new(self.list, self.count))
    }
}
