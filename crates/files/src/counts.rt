// How many entries and links there are, and may be.

/// A book has at most so many entries.
pub const MOST_ENTRIES: usize = 128;

/// A book has at most so many links.
pub const MOST_LINKS: usize = 1024;

/// A number of entries and a number of links.
#[derive(Clone, Copy, PartialEq, Eq, Debug, Default)]
pub struct Counts {
    pub entries: usize,
    pub links: usize,
}
