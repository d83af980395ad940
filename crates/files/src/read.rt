// A book out of a file.
ghost use Rattle.std.specs.Prelude.{◌≡◌, ℕ, take, IfOk};
ghost use Rattle.files.specs.Books.{room_of, Decided, ReadBook, SameFile};

use crate::check::check;
use crate::counts::{Counts, MOST_ENTRIES, MOST_LINKS};
use crate::fill::{fill_entries, fill_links};
use crate::frame::split_record;
use graphs::link::Link;
use kinds::kind::{Kind, Payload};
use refusals::Refusal;

/// Reads a book of one kind of value into the fronts of two buffers, and tells how many entries and links it has.
pub fn read_book<K: Kind>(
    bytes: &[u8],
    entries: &mut [K],
    links: &mut [Link],
) -> Result<Counts, Refusal>
    ensures decided { Decided K.Payload.Payload.shape (room_of entries.old links.old) bytes.now result }
    ensures read { ReadBook K.Payload.Payload.shape K.Payload.Payload.encoded K.Payload.Payload.decoded bytes.now entries.old entries.new links.old links.new result }
    ensures again { IfOk result (λ n. SameFile K.Payload.Payload.shape K.Payload.Payload.encoded bytes.now (take n.entries entries.new) (take n.links links.new)) }
{
    let room = Counts {
        entries: entries.len().min(MOST_ENTRIES),
        links: links.len().min(MOST_LINKS),
    };
    let read = check::<K>(bytes, room)?;
    let (_, left) = split_record(bytes);
    let left = fill_entries::<K>(left, &mut entries[..read.entries]);
    fill_links(left, &mut links[..read.links]);
    Ok(read)
}
