// The lines of an answer, each made at its place in the text.
ghost use Rattle.std.specs.Prelude.{◌≡◌, ℕ, ◌<◌, ◌≤◌, ◌+◌, length};
ghost use Rattle.listing.specs.Lines.{Laid};
ghost use Rattle.listing.specs.Puts.{PutAt};
ghost use Rattle.asking.specs.Tells.{line_of, row_of, lines_of};

use crate::evaluated::Evaluated;
use crate::room::NO_STEP;
use languages::step::Step;
use listing::lines::{first_line, long_line, pair_line};
use queries::found::Found;
use tables::cell::MOST_STEPS;

// Puts the line of a pair at a place of a text, where a path joins the pair, and tells where it ends.
pub(crate) fn put_pair(
    text: &mut [u8],
    at: usize,
    evaluated: Evaluated,
    u: usize,
    v: usize,
    steps: &mut [Step],
) -> usize
    requires first { u < evaluated.entries }
    requires second { v < evaluated.entries }
    requires path { MOST_STEPS ≤ length steps.old }
    requires room { at + length (line_of evaluated u v) ≤ length text.old }
    ensures { PutAt (line_of evaluated.entry u v) at result text.old text.new }
{
    match evaluated.found(u, v) {
        Found::Steps(count) => {
            let path = evaluated.path(u, v, steps);
            at + pair_line(u, v, count as usize, path, &mut text[at..]).unwrap()
        }
        Found::Long => at + long_line(u, v, &mut text[at..]).unwrap(),
        Found::Absent => at,
    }
}

// Puts the lines of the pairs with one first entry at a place of a text, and tells where they end.
fn put_row(text: &mut [u8], at: usize, evaluated: Evaluated, u: usize, steps: &mut [Step]) -> usize
    requires first { u < evaluated.entries }
    requires path { MOST_STEPS ≤ length steps.old }
    requires room { at + length (row_of evaluated u) ≤ length text.old }
    ensures { PutAt (row_of evaluated.entry u) at result text.old text.new }
{
    let mut end = at;
    // An entry is known by its number.
    for v in 0..evaluated.entries {
        end = put_pair(text, end, evaluated, u, v, steps);
    }
    end
}

// Puts the first line, and the lines of all pairs, at the front of a text, and tells where they end.
pub(crate) fn list(text: &mut [u8], evaluated: Evaluated) -> usize
    requires { length (lines_of evaluated) ≤ length text.old }
    ensures { Laid (lines_of evaluated.entry) text.old text.new result }
{
    let mut steps = [NO_STEP; MOST_STEPS];
    let mut end = first_line(evaluated.entries, evaluated.tally(), text).unwrap();
    // By number, as in `put_row`.
    for u in 0..evaluated.entries {
        end = put_row(text, end, evaluated, u, &mut steps);
    }
    end
}
