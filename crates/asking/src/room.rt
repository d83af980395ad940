// The room that the program has.
use languages::step::Step;
use tables::cell::MOST_STEPS;

// For so many entries,
pub(crate) const ROOM_ENTRIES: usize = 16;

// so many links,
pub(crate) const ROOM_LINKS: usize = 256;

// and so many cells.
pub(crate) const ROOM_CELLS: usize = 4096;

// What stands in a buffer of steps before a path does.
pub(crate) const NO_STEP: Step = Step {
    letter: 0,
    entry: 0,
};

// For so many bytes of a line: none has more, with 21 for each step of a path.
pub(crate) const LINE: usize = 128 + 21 * MOST_STEPS;

/// For so many bytes of an answer: none has more, with a first line and at most one for each two entries. Into a buffer of so many an answer goes without being measured.
pub const MOST_TEXT: usize = LINE * (1 + ROOM_ENTRIES * ROOM_ENTRIES);
