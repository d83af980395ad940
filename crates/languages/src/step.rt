// The steps of data paths.

/// One step: the letter of a link, and the entry that it leads to.
#[derive(Clone, Copy, PartialEq, Eq, Debug)]
pub struct Step {
    pub letter: u8,
    pub entry: usize,
}
