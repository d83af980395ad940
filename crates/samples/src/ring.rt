// Entries that are linked to a ring.
ghost use Rattle.std.specs.Prelude.{◌≡◌, map};
ghost use Rattle.std.specs.List.{range_with_len};
ghost use Rattle.samples.specs.Rings.{ring_link};

use graphs::link::Link;
use std::array;

/// How many entries the ring of the examples has.
pub const RING: usize = 125;

/// The link from an entry to the next by `a`; none comes after the last, so it leads to the first.
pub fn ring_link(entries: usize, from: usize) -> Link
    ensures { result ≡ ring_link entries from }
{
    let to = if from < entries.saturating_sub(1) {
        from + 1
    } else {
        0
    };
    Link {
        from,
        letter: b'a',
        to,
    }
}

/// The links of the ring of the examples.
pub fn ring() -> [Link; RING]
    ensures { result ≡ map (ring_link 125) (range_with_len 0 125) }
{
    array::from_fn(|from| ring_link(RING, from))
}
