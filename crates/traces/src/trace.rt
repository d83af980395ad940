// The steps of a path, taken from a table.
ghost use Rattle.std.specs.Prelude.{◌≡◌, ℕ, ◌+◌, ◌<◌, ◌≤◌, length, None, MatchOption};
ghost use Rattle.expressions.specs.Storing.{parts_of};
ghost use Rattle.traces.specs.Places.{PlaceIn, cells_in, chosen_at, Stands};
ghost use Rattle.traces.specs.Tracing.{steps_row, path_rows, TakenBy, TracesSteps};

use crate::choice::Choice;
use crate::chooser::Chooser;
use expressions::part::Parts;
use languages::step::Step;
use refusals::Refusal;
use tables::cell::{LONG, MOST_STEPS};
use tables::cells::Cells;

// Most paths that are told have no more than so many steps.
const FEW_STEPS: usize = 15;

// What stands in a buffer before its steps do.
const NO_STEP: Step = Step {
    letter: 0,
    entry: 0,
};

impl Chooser<'_> {
    // Writes the steps that are chosen at part q from an offset on, and tells where they end; nothing is told where the cells lead to no steps.
    fn put_steps(
        &self,
        q: usize,
        u: usize,
        v: usize,
        steps: &mut [Step],
        at: usize,
    ) -> Option<usize>
        requires place { PlaceIn self.now q u v }
        requires room { at + cells_in self.now q u v ≤ length steps.old }
        ensures { MatchOption result (chosen_at self.now q u v ≡ None) (λ end. Stands (chosen_at self.now q u v) (cells_in self.now q u v) at end steps.old steps.new) }
    {
        match self.choice(q, u, v)? {
            Choice::Stay => Some(at),
            Choice::Along(step) => {
                steps[at] = step;
                Some(at + 1)
            }
            Choice::Inside { part } => self.put_steps(part, u, v, steps, at),
            Choice::Through {
                left,
                middle,
                right,
            } => {
                let joint = self.put_steps(left, u, middle, steps, at)?;
                self.put_steps(right, middle, v, steps, joint)
            }
        }
    }

    // Writes the steps that are chosen at part q to the front, by way of another buffer, since the cells may lead to no steps, and then nothing is written.
    fn tell(
        &self,
        q: usize,
        u: usize,
        v: usize,
        found: &mut [Step],
        steps: &mut [Step],
    ) -> Result<usize, Refusal>
        requires place { PlaceIn self.now q u v }
        requires found { cells_in self.now q u v ≤ length found.old }
        requires room { cells_in self.now q u v ≤ length steps.old }
        ensures { TakenBy (steps_row (chosen_at self.now q u v)) (cells_in self.now q u v) (chosen_at self.now q u v) steps.old steps.new result }
    {
        let count = self
            .put_steps(q, u, v, found, 0)
            .ok_or(Refusal::TableAltered)?;
        steps[..count].copy_from_slice(&found[..count]);
        Ok(count)
    }

    // Goes by the cell of part q: tells the steps where it counts some and there is room for so many.
    fn tell_by_cell(
        &self,
        q: usize,
        u: usize,
        v: usize,
        steps: &mut [Step],
    ) -> Result<usize, Refusal>
        requires { PlaceIn self.now q u v }
        ensures { TakenBy (path_rows (cells_in self.now q u v) (length steps.old) (chosen_at self.now q u v)) (cells_in self.now q u v) (chosen_at self.now q u v) steps.old steps.new result }
    {
        match self.cell(q, u, v) {
            count if count > LONG => Err(Refusal::NoPath),
            LONG => Err(Refusal::OnlyLongPaths),
            count if steps.len() < count as usize => Err(Refusal::StepsTooShort),
            // A short buffer is sooner made.
            count if count as usize <= FEW_STEPS => {
                self.tell(q, u, v, &mut [NO_STEP; FEW_STEPS], steps)
            }
            _ => self.tell(q, u, v, &mut [NO_STEP; MOST_STEPS], steps),
        }
    }
}

/// Writes the steps that are chosen for the whole expression from u to v at the front of the buffer, and tells how many; or is refused, and writes nothing.
pub fn trace(
    parts: &Parts,
    table: &[u32],
    n: usize,
    u: usize,
    v: usize,
    steps: &mut [Step],
) -> Result<usize, Refusal>
    ensures { TracesSteps (parts_of parts.now) table.now n u v steps.old steps.new result }
{
    if u >= n || v >= n {
        return Err(Refusal::NoSuchEntry);
    }
    let cells = Cells::over(parts, table, n)?;
    Chooser { cells }.tell_by_cell(cells.parts.len() - 1, u, v, steps)
}
