// Rows made smaller by going over a middle entry.
ghost use Rattle.std.specs.Prelude.{◌≡◌, ℕ, ◌≤◌, min, length, slice_index, EachIndex};
ghost use Rattle.languages.specs.Algebra.{sat_add};
ghost use Rattle.languages.specs.Cells.{none};

use crate::cell::{LONG, NONE};

// The cell of a path joined to another.
fn joined(first: u32, second: u32) -> u32
    ensures { result ≡ sat_add first second }
{
    if first > LONG || second > LONG {
        NONE
    } else {
        (first + second).min(LONG)
    }
}

// Goes over a middle with one row: `first` leads to the middle, and `middle` on from there.
pub(crate) fn relax_row(row: &mut [u32], first: u32, middle: &[u32])
    requires same_length { length row.old ≡ length middle.now }
    requires small { EachIndex row.old (λ v. slice_index row.old v ≤ none) }
    ensures { EachIndex row.new (λ v. slice_index row.new v ≡ min (slice_index row.old v) (sat_add first (slice_index middle.now v))) }
{
    if first > LONG {
        return;
    }
    for (v, cell) in row.iter_mut().enumerate() {
        let over = joined(first, middle[v]);
        if over < *cell {
            *cell = over;
        }
    }
}

// The same, in a form that the compiler turns into work on several cells at a time: for a row that is made anew.
pub(crate) fn lower_row(row: &mut [u32], first: u32, middle: &[u32])
    requires same_length { length row.old ≡ length middle.now }
    requires small { EachIndex row.old (λ v. slice_index row.old v ≤ none) }
    ensures { EachIndex row.new (λ v. slice_index row.new v ≡ min (slice_index row.old v) (sat_add first (slice_index middle.now v))) }
{
    if first > LONG {
        return;
    }
    for (v, cell) in row.iter_mut().enumerate() {
        *cell = (*cell).min(joined(first, middle[v]));
    }
}
