// Scans of a block for pairs that are joined.
ghost use Rattle.std.specs.Prelude.{◌≡◌, ℕ, ◌+◌, ◌*◌, ◌≤◌, length, nat_le, position, count_by};
ghost use Rattle.queries.specs.Pairs.{First, From, Reaches};
ghost use Rattle.tables.specs.Blocks.{cell};

use tables::cell::LONG;

// Where the first cell that tells of a path stands.
fn first_reached(cells: &[u32]) -> Option<usize>
    ensures { result ≡ position (λ c. nat_le c LONG) cells.now }
{
    cells.iter().position(|cell| *cell <= LONG)
}

// The first pair from (u, v) on, by its first entry and then by its second, that a path joins.
pub(crate) fn first_from(block: &[u32], n: usize, u: usize, v: usize) -> Option<(usize, usize)>
    requires square { length block.now ≡ n * n }
    requires column { v ≤ n }
    requires within { u * n + v ≤ length block.now }
    ensures { First (From u v) n (Reaches (cell block.now 0 n)) result }
{
    // The cells stand in the order of their pairs.
    let start = u * n + v;
    let at = start + first_reached(&block[start..])?;
    // Most often it is in the row of u: then no division is needed.
    let column = at - u * n;
    if column < n {
        return Some((u, column));
    }
    Some((at / n, at % n))
}

// How many pairs are joined.
pub(crate) fn tally(block: &[u32]) -> usize
    ensures { result ≡ count_by (λ c. nat_le c LONG) block.now }
{
    // A sum of ones: the compiler adds several cells at a time, which it does not with `filter` and `count`.
    block.iter().map(|cell| usize::from(*cell <= LONG)).sum()
}
