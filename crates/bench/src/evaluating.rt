// A question evaluated over a book of names.

use crate::made::{Size, make_links, make_names, turn_one};
use crate::sums::{Sums, add};
use expressions::parse::parse;
use graphs::book::Book;
use queries::Query;
use std::alloc::Global;

// A unit is a part and three entries: the ends of a path, and a middle. The joined pairs are counted, and the cells summed.
pub(crate) fn evaluate(
    alloc: Global,
    size: Size,
    rounds: usize,
    wording: &[u8],
) -> anyhow::Result<Sums> {
    let parts = parse(wording)?.as_slice().len();
    let mut query = Query::new();
    query.parse(wording)?;
    let values = make_names(alloc, size)?;
    let mut links = make_links(alloc, size)?;
    let n = usize::from(size.entries);
    let mut table = vec![in alloc; 0; parts * (n * n)]?;
    let mut counted: usize = 0;
    for round in 0..rounds {
        turn_one(&mut links, round);
        let book = Book {
            values: &values,
            links: &links,
        };
        query.evaluate(&book, &mut table)?;
        counted = counted.wrapping_add(query.tally(&table)?);
    }
    Ok(Sums {
        units: parts * (n * n * n),
        counted,
        sum: table.iter().fold(0, |sum, cell| add(sum, u64::from(*cell))),
    })
}
