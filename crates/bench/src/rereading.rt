// A book file read, and written again.

use crate::made::turn_one;
use crate::sums::{Sums, add};
use files::read::read_book;
use files::write::write_book;
use graphs::link::Link;
use kinds::kind::Kind;
use std::alloc::Global;

// The most bytes that a book file has.
pub(crate) const MOST_BYTES: usize = 6 + 128 * 132 + 1024 * 7;

// A unit is a record. The records are counted, and the bytes summed.
pub(crate) fn reread<K: Kind>(
    alloc: Global,
    values: &mut [K],
    links: &mut [Link],
    rounds: usize,
) -> anyhow::Result<Sums> {
    let mut file = vec![in alloc; 0; MOST_BYTES]?;
    let size = write_book(values, links, &mut file)?;
    file.truncate(size);
    let mut counted: usize = 0;
    for round in 0..rounds {
        let read = read_book(&file, values, links)?;
        counted = counted.wrapping_add(read.entries).wrapping_add(read.links);
        turn_one(links, round);
        write_book(values, links, &mut file)?;
    }
    Ok(Sums {
        units: values.len().wrapping_add(links.len()).wrapping_add(1),
        counted,
        sum: file.iter().fold(0, |sum, byte| add(sum, u64::from(*byte))),
    })
}
