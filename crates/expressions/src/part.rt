// The parts of an expression, as they are stored.
ghost use Rattle.std.specs.Prelude.{◌≡◌, ℕ, ◌≤◌, true, length, take};
ghost use Rattle.expressions.specs.Grammar.{most_parts};
ghost use Rattle.expressions.specs.Numbering.{well_formed};

/// An expression has at most so many parts.
pub const MOST_PARTS: usize = 32;

/// One part. What a sign stands behind, and the right half of two, is the part numbered just before; the left half is told by its number.
#[derive(Clone, Copy, PartialEq, Eq, Debug)]
pub enum Part {
    Epsilon,
    Letter(u8),
    Either { left: usize },
    Join { left: usize },
    Plus,
    Star,
    Same,
    Differ,
}

/// The parts of an expression in their order, each made of parts before it. They lie at the front of a list that has room for the most, as nothing is allocated; the kit's `ArrayVec` would not be `Copy`.
#[derive(Clone, Copy)]
pub struct Parts {
    list: [Part; MOST_PARTS],
    count: usize,
    pub ghost few: { count ≤ most_parts },
    pub ghost some: { 1 ≤ length (take count list) },
    pub ghost formed: { well_formed 0 (take count list) ≡ true },
}

impl Parts {
    ghost use Rattle.expressions.specs.Storing.{parts_of};

    // Those at the front of a list.
    pub(crate) fn new(list: [Part; MOST_PARTS], count: usize) -> Self
        requires few { count ≤ most_parts }
        requires some { 1 ≤ length (take count list) }
        requires formed { well_formed 0 (take count list) ≡ true }
        ensures { parts_of result ≡ take count list }
    {
        Parts { list, count }
    }

    /// The parts, in their order.
    pub fn as_slice(&self) -> &[Part]
        ensures front { result.now ≡ parts_of self.now }
        ensures some { 1 ≤ length result.now }
        ensures few { length result.now ≤ most_parts }
        ensures formed { well_formed 0 result.now ≡ true }
    {
        &self.list[..self.count]
    }
}
