// The book of a case: its values and its links. The plain program in bench/ makes the same.

use graphs::link::Link;
use kinds::calendar::Calendar;
use kinds::day::Day;
use kinds::name::Name;
use samples::ring::ring_link;
use std::alloc::{AllocError, Global};

// How large the book is: its entries, the bytes of its longest names, and its links.
#[derive(Clone, Copy)]
pub(crate) struct Size {
    pub(crate) entries: u8,
    pub(crate) name: u8,
    pub(crate) links: usize,
}

// Two entries share each name; long names differ only in their length, up to 3 bytes shorter than the longest, and in their last byte.
fn name_at(entry: u8, longest: u8) -> Name {
    let pair = entry / 2;
    let longest = longest.clamp(1, 128);
    let len = longest - pair % longest.min(4);
    let mut bytes = [b'x'; 128];
    bytes[usize::from(len) - 1] = pair;
    Name { len, bytes }
}

// The names of so many entries.
pub(crate) fn make_names(alloc: Global, size: Size) -> Result<Vec<Name>, AllocError> {
    (0..size.entries)
        .map(|entry| name_at(entry, size.name))
        .collect(alloc)
}

// Days of both calendars and all months.
fn day_at(entry: u8) -> Day {
    let calendar = if entry % 2 == 0 {
        Calendar::Gregorian
    } else {
        Calendar::Julian
    };
    Day {
        calendar,
        year: 1900 + u16::from(entry),
        month: 1 + entry % 12,
        date: 1 + entry % 28,
    }
}

// The days of so many entries.
pub(crate) fn make_days(alloc: Global, size: Size) -> Result<Vec<Day>, AllocError> {
    (0..size.entries).map(day_at).collect(alloc)
}

// The next number of a fixed sequence that looks drawn.
fn draw(drawn: usize) -> usize {
    drawn
        .wrapping_mul(6364136223846793005)
        .wrapping_add(1442695040888963407)
}

// Each entry in turn has links of `a`, `b`, `c` and `d`: those of `a` make a ring, the others lead to an entry that is drawn.
pub(crate) fn make_links(alloc: Global, size: Size) -> Result<Vec<Link>, AllocError> {
    let mut links = Vec::new(alloc);
    let entries = usize::from(size.entries).max(1);
    let mut drawn = 1;
    for place in 0..size.links {
        let from = place / 4 % entries;
        let letter = [b'a', b'b', b'c', b'd'][place % 4];
        links.push(if letter == b'a' {
            ring_link(entries, from)
        } else {
            drawn = draw(drawn);
            // The upper bits, as the lower ones soon come again.
            let to = (drawn >> 33) % entries;
            Link { from, letter, to }
        })?;
    }
    Ok(links)
}

// Exchanges the ends of one link, so that no two rounds in turn have the same work.
pub(crate) fn turn_one(links: &mut [Link], round: usize) {
    let count = links.len().max(1);
    if let Some(link) = links.get_mut(round % count) {
        *link = link.turned();
    }
}
