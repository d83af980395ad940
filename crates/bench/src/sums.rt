// What the rounds of a case came to.

// How many units of work one round has, what was counted in all rounds, and a sum over what the last one made.
#[derive(Clone, Copy)]
pub(crate) struct Sums {
    pub(crate) units: usize,
    pub(crate) counted: usize,
    pub(crate) sum: u64,
}

// Each number changes the sum, and so does its place.
pub(crate) fn add(sum: u64, number: u64) -> u64 {
    sum.wrapping_mul(31).wrapping_add(number)
}
