// How long the lines of an answer are, before any of them lies in the text.
ghost use Rattle.std.specs.Prelude.{◌≡◌, ℕ, ◌<◌, ◌≤◌, length, nat_le};
ghost use Rattle.asking.specs.Input.{most_text};
ghost use Rattle.asking.specs.Tells.{row_of, lines_of};

use crate::evaluated::Evaluated;
use crate::list::put_pair;
use crate::room::{LINE, MOST_TEXT, NO_STEP};
use languages::step::Step;
use listing::lines::first_line;
use tables::cell::MOST_STEPS;

// How many bytes the lines of the pairs with one first entry have: each is put at the front of a text that has room for any.
fn measure_row(line: &mut [u8], evaluated: Evaluated, u: usize, steps: &mut [Step]) -> usize
    requires first { u < evaluated.entries }
    requires path { MOST_STEPS ≤ length steps.old }
    requires room { LINE ≤ length line.old }
    ensures { result ≡ length (row_of evaluated.entry u) }
{
    let mut size = 0;
    for v in 0..evaluated.entries {
        size += put_pair(line, 0, evaluated, u, v, steps);
    }
    size
}

// How many bytes the first line and the lines of all pairs have.
fn measure(evaluated: Evaluated) -> usize
    ensures { result ≡ length (lines_of evaluated.entry) }
{
    let mut line = [0; LINE];
    let mut steps = [NO_STEP; MOST_STEPS];
    let mut size = first_line(evaluated.entries, evaluated.tally(), &mut line).unwrap();
    for u in 0..evaluated.entries {
        size += measure_row(&mut line, evaluated, u, &mut steps);
    }
    size
}

// Whether a text has room for these lines. They are not measured where it has room for every answer.
pub(crate) fn has_room(text: &[u8], evaluated: Evaluated) -> bool
    ensures is { result ≡ nat_le (length (lines_of evaluated.entry)) (length text.now) }
    ensures within { length (lines_of evaluated.entry) ≤ most_text }
{
    text.len() >= MOST_TEXT || measure(evaluated) <= text.len()
}
