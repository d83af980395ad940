// The answer to a question, as text.

use crate::made::{Size, make_links, make_names};
use crate::rereading::MOST_BYTES;
use crate::sums::{Sums, add};
use anyhow::bail;
use asking::answer::{Answer, answer_to};
use asking::room::MOST_TEXT;
use files::write::write_book;
use std::alloc::Global;

// An input that asks this wording of a made book.
fn make_input(alloc: Global, size: Size, wording: &[u8]) -> anyhow::Result<Vec<u8>> {
    let mut file = vec![in alloc; 0; MOST_BYTES]?;
    let values = make_names(alloc, size)?;
    let links = make_links(alloc, size)?;
    let length = write_book(&values, &links, &mut file)?;
    let mut input = Vec::new(alloc);
    input.extend_from_slice(wording)?;
    input.push(b'\n')?;
    file.truncate(length);
    input.extend_from_slice(&file)?;
    Ok(input)
}

// Exchanges the ends of the last link, so that no two rounds in turn have the same work.
fn turn_last(input: &mut [u8]) {
    if let [.., from, _, to] = input {
        (*from, *to) = (*to, *from);
    }
}

// A unit is a byte of the text. The bytes are counted, and summed.
pub(crate) fn list(
    alloc: Global,
    size: Size,
    rounds: usize,
    wording: &[u8],
) -> anyhow::Result<Sums> {
    let mut input = make_input(alloc, size, wording)?;
    let mut text = vec![in alloc; 0; MOST_TEXT]?;
    let mut units: usize = 0;
    let mut counted: usize = 0;
    for _ in 0..rounds {
        turn_last(&mut input);
        units = match answer_to(&input, &mut text)? {
            Answer::Listed(length) => length,
            Answer::Refused(_) => bail!("refused"),
        };
        counted = counted.wrapping_add(units);
    }
    text.truncate(units);
    Ok(Sums {
        units,
        counted,
        sum: text.iter().fold(0, |sum, byte| add(sum, u64::from(*byte))),
    })
}
