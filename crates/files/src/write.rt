// A book as a file.
ghost use Rattle.std.specs.Prelude.{◌≡◌, ℕ, ◌*◌, ◌≤◌, true, map, length, take, IfOk};
ghost use Rattle.std.specs.List.{AllByRecursion};
ghost use Rattle.graphs.specs.Links.{all_sound};
ghost use Rattle.kinds.specs.Payloads.{valid};
ghost use Rattle.files.specs.Books.{writable, WriteBook, SameBook};
ghost use Rattle.files.specs.Encoding.{entry_bytes};

use crate::counts::{MOST_ENTRIES, MOST_LINKS};
use crate::frame::{HEAD_SIZE, HEADING_SIZE, LINK_SIZE};
use crate::put::{put_entries, put_head, put_links};
use graphs::link::Link;
use kinds::kind::{Kind, Payload};
use refusals::Refusal;

// Whether every link stands among so many entries.
fn all_sound(links: &[Link], entries: usize) -> bool
    ensures { result ≡ all_sound entries links.now }
{
    links.iter().all(|link| link.is_sound(entries))
}

// Whether a book of so many entries may be written.
fn is_writable(entries: usize, links: &[Link]) -> bool
    ensures { result ≡ writable entries links.now }
{
    entries <= MOST_ENTRIES && links.len() <= MOST_LINKS && all_sound(links, entries)
}

// How many bytes the records of the entries take.
fn entries_size<K: Kind>(entries: &[K]) -> usize
    requires { length entries.now ≤ 128 }
    ensures is { result ≡ length (entry_bytes K.Payload.Payload.encoded entries.now) }
    ensures small { result ≤ 128 * 65540 }
{
    entries
        .iter()
        .map(|entry| HEADING_SIZE + K::Payload::size(entry))
        .sum()
}

/// Writes a book of one kind of value to the front of a buffer, and tells how many bytes it takes.
pub fn write_book<K: Kind>(entries: &[K], links: &[Link], out: &mut [u8]) -> Result<usize, Refusal>
    ensures written { WriteBook K.Payload.Payload.shape K.Payload.Payload.encoded entries.now links.now out.old out.new result }
    ensures again { IfOk result (λ n. SameBook K.Payload.Payload.shape K.Payload.Payload.encoded K.Payload.Payload.decoded K.Payload.Payload.agree (take n out.new) entries.now links.now) }
{
    if !is_writable(entries.len(), links) {
        return Err(Refusal::BookUnwritable);
    }
    let entries_size = entries_size(entries);
    let links_size = (HEADING_SIZE + LINK_SIZE) * links.len();
    let size = HEADING_SIZE + HEAD_SIZE + entries_size + links_size;
    if out.len() < size {
        return Err(Refusal::BytesTooShort);
    }
    let (head, out) = out.split_at_mut(HEADING_SIZE + HEAD_SIZE);
    let (middle, out) = out.split_at_mut(entries_size);
    let (end, _) = out.split_at_mut(links_size);
    put_head::<K>(head);
    put_entries(entries, middle);
    put_links(links, entries.len(), end);
    Ok(size)
}
