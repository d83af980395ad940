// The wording of a question, read as an expression.
ghost use Rattle.std.specs.Prelude.{◌≡◌, ℕ};
ghost use Rattle.expressions.specs.Wordings.{Decided, Parsed};
ghost use Rattle.refusals.specs.declared.Refusal.TheVariants.{NotAnExpression};

use crate::part::Parts;
use crate::reader::{SyntaxError, read};
use refusals::Refusal;

/// A wording has at most so many bytes.
pub const MOST_WORDING: usize = 200;

/// The parts of the expression that a text stands for.
pub fn parse(text: &[u8]) -> Result<Parts, Refusal>
    ensures parsed { Parsed text.now result }
    ensures decided { Decided text.now result }
{
    if text.len() > MOST_WORDING {
        return Err(Refusal::WordingTooLong);
    }
    read(text)?.finish().ok_or(Refusal::TooManyParts)
}

impl From<SyntaxError> for Refusal {
    ghost from_gives = { λ e r. r ≡ NotAnExpression e.at };

    fn from(e: SyntaxError) -> Refusal {
        Refusal::NotAnExpression { at: e.at }
    }
}
