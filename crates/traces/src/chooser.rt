// What the cells of a table choose at a part and a pair.
use crate::choice::Choice;
use expressions::part::Part;
use tables::cells::Cells;

// The cells may be altered, and hold anything.
#[derive(Clone, Copy)]
pub(crate) struct Chooser<'a> {
    pub(crate) cells: Cells<'a>,
}

// A pair is told by u, where the steps begin, and v, where they end; k is how many steps are to be taken.
impl Chooser<'_> {
    ghost use Rattle.std.specs.Prelude.{◌≡◌, ℕ, ◌-◌, ◌<◌};
    ghost use Rattle.traces.specs.Choosing.{part_at, through, inside, pieces, choose};
    ghost use Rattle.traces.specs.Places.{PlaceIn, cells_in, Chooses};

    // How many steps part q counts. Read in place, since the tests of `Cells::cell` made an answer slower by a fifth.
    pub(crate) fn cell(&self, q: usize, u: usize, v: usize) -> u32
        requires { PlaceIn self.now q u v }
        ensures { result ≡ cells_in self.now q u v }
    {
        let Cells { table, n, .. } = self.cells;
        table[q * (n * n) + (u * n + v)]
    }

    // Over the first middle: at least so many steps before it, and k in all.
    fn through(
        &self,
        least: u32,
        left: usize,
        right: usize,
        u: usize,
        v: usize,
        k: u32,
    ) -> Option<Choice>
        requires left { PlaceIn self.now left u v }
        requires right { PlaceIn self.now right u v }
        ensures { result ≡ through (cells_in self.now) self.now.cells.n least left right u v k }
    {
        for middle in 0..self.cells.n {
            let before = self.cell(left, u, middle);
            if least <= before && before <= k && k - before == self.cell(right, middle, v) {
                return Some(Choice::Through {
                    left,
                    middle,
                    right,
                });
            }
        }
        None
    }

    // Part q, where it counts k steps.
    fn inside(&self, q: usize, u: usize, v: usize, k: u32) -> Option<Choice>
        requires { PlaceIn self.now q u v }
        ensures { result ≡ inside (cells_in self.now) q u v k }
    {
        (self.cell(q, u, v) == k).then_some(Choice::Inside { part: q })
    }

    // One piece of a repeat; or else a piece of at least one step, and the repeat from there on.
    fn pieces(&self, q: usize, u: usize, v: usize, k: u32) -> Option<Choice>
        requires place { PlaceIn self.now q u v }
        requires repeat { 0 < q }
        ensures { result ≡ pieces (cells_in self.now) self.now.cells.n q u v k }
    {
        match self.inside(q - 1, u, v, k) {
            None => self.through(1, q - 1, q, u, v, k),
            piece => piece,
        }
    }

    // What is chosen at part q; nothing where the cells lead to no steps.
    fn choose(&self, q: usize, u: usize, v: usize, k: u32) -> Option<Choice>
        requires { PlaceIn self.now q u v }
        ensures { result ≡ choose (cells_in self.now) self.now.cells.n (part_at self.now.cells.parts.now q) q u v k }
    {
        match self.cells.parts[q] {
            Part::Epsilon => Choice::stay(u, v, k),
            Part::Letter(letter) => Choice::along(letter, v, k),
            Part::Either { left } => {
                let first = self.inside(left, u, v, k);
                first.or(self.inside(q - 1, u, v, k))
            }
            Part::Join { left } => self.through(0, left, q - 1, u, v, k),
            Part::Plus => self.pieces(q, u, v, k),
            Part::Star => match Choice::stay(u, v, k) {
                None => self.pieces(q, u, v, k),
                stay => stay,
            },
            Part::Same | Part::Differ => self.inside(q - 1, u, v, k),
        }
    }

    // What is chosen at part q for as many steps as it counts.
    pub(crate) fn choice(&self, q: usize, u: usize, v: usize) -> Option<Choice>
        requires { PlaceIn self.now q u v }
        ensures { Chooses self.now q u v result }
    {
        self.choose(q, u, v, self.cell(q, u, v))
    }
}
