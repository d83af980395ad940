// What a lookup finds.
ghost use Rattle.std.specs.Prelude.{◌≡◌};
ghost use Rattle.queries.specs.Calls.{found_in};

use tables::cell::LONG;

/// The fewest steps that join a pair; or that all paths have 1,000 steps or more; or that there is no path: three cases, of which two `Option`s would hide which is which.
#[derive(Clone, Copy, PartialEq, Eq, Debug)]
pub enum Found {
    Steps(u32),
    Long,
    Absent,
}

// What a cell of a table tells.
impl From<u32> for Found {
    ghost from_gives = { λ cell r. r ≡ found_in cell };

    fn from(cell: u32) -> Found {
        match cell {
            0..LONG => Found::Steps(cell),
            LONG => Found::Long,
            _ => Found::Absent,
        }
    }
}
