// What a cell of a table tells; a number, since the table is the caller's.
ghost use Rattle.std.specs.Prelude.{◌≡◌, ◌+◌};
ghost use Rattle.languages.specs.Cells.{long};

/// Stands for every count of steps from 1,000 on.
pub const LONG: u32 = 1000;

/// The most steps that a cell counts.
pub const MOST_STEPS: usize = LONG as usize - 1;

/// Stands for no path.
pub const NONE: u32 = 1001;

/// A source may have at most so many entries: a rule apart from that of a file, whose crate is not seen from here.
pub const MOST_ENTRIES: usize = 128;

/// One step more than the most is told as long. The function does nothing: its contract is the statement.
pub fn most_steps_before_long()
    ensures { MOST_STEPS + 1 ≡ long }
{}
