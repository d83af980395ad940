// Records written into the parts of a buffer that are just as long.
ghost use Rattle.std.specs.Prelude.{◌≡◌, ℕ, ◌+◌, ◌*◌, ◌<◌, ◌≤◌, ◌++◌, true, map, length};
ghost use Rattle.std.specs.List.{AllByRecursion};
ghost use Rattle.graphs.specs.Links.{all_sound};
ghost use Rattle.kinds.specs.Payloads.{valid, two_bytes};
ghost use Rattle.files.specs.Encoding.{head_kind, entry_kind, link_kind, framed, link_bytes, entry_bytes, links_bytes};
ghost use Rattle.files.specs.Walking.{number_of};

use crate::frame::{HEADING_SIZE, LINK_SIZE, RecordKind};
use graphs::link::Link;
use kinds::kind::{Kind, Payload};

// The heading of a record whose payload has so many bytes.
fn put_heading(kind: RecordKind, size: usize, out: &mut [u8])
    requires small { size < 65536 }
    requires room { length out.old ≡ 4 }
    ensures { out.new ≡ two_bytes size ++ two_bytes (number_of kind) }
{
    let [size_low, size_high] = (size as u16).to_le_bytes();
    let [kind_low, kind_high] = (kind as u16).to_le_bytes();
    out.copy_from_slice(&[size_low, size_high, kind_low, kind_high]);
}

// A record with this payload.
fn put_record(kind: RecordKind, payload: &[u8], out: &mut [u8])
    requires small { length payload.now < 65536 }
    requires room { length out.old ≡ 4 + length payload.now }
    ensures { out.new ≡ framed (number_of kind) payload.now }
{
    let (heading, place) = out.split_at_mut(HEADING_SIZE);
    put_heading(kind, payload.len(), heading);
    place.copy_from_slice(payload);
}

pub(crate) fn put_head<K: Kind>(out: &mut [u8])
    requires { length out.old ≡ 6 }
    ensures { out.new ≡ framed head_kind (two_bytes K.Payload.Payload.shape.number) }
{
    put_record(RecordKind::Head, &K::NUMBER.to_le_bytes(), out);
}

fn put_entry<K: Kind>(entry: &K, size: usize, out: &mut [u8])
    requires size { size ≡ length (K.Payload.Payload.encoded entry.now) }
    requires small { size < 65536 }
    requires room { length out.old ≡ 4 + size }
    ensures { out.new ≡ framed entry_kind (K.Payload.Payload.encoded entry.now) }
{
    let (heading, place) = out.split_at_mut(HEADING_SIZE);
    put_heading(RecordKind::Entry, size, heading);
    K::Payload::write(entry, place);
}

// The offset is counted, since after a loop that cuts the room by `split_at_mut` a proof knows nothing of the whole.
pub(crate) fn put_entries<K: Kind>(entries: &[K], out: &mut [u8])
    requires { length out.old ≡ length (entry_bytes K.Payload.Payload.encoded entries.now) }
    ensures written { out.new ≡ entry_bytes K.Payload.Payload.encoded entries.now }
    ensures values { AllByRecursion (λ p. valid K.Payload.Payload.shape p ≡ true) (map K.Payload.Payload.encoded entries.now) }
{
    let mut at = 0;
    for entry in entries {
        let size = K::Payload::size(entry);
        let end = at + (HEADING_SIZE + size);
        put_entry(entry, size, &mut out[at..end]);
        at = end;
    }
}

fn put_link(link: Link, out: &mut [u8])
    requires room { length out.old ≡ 7 }
    requires from { link.from < 256 }
    requires to { link.to < 256 }
    ensures { out.new ≡ framed link_kind (link_bytes link) }
{
    let payload = [link.from as u8, link.letter, link.to as u8];
    put_record(RecordKind::Link, &payload, out);
}

// With the offset counted, as in `put_entries`. That asks each entry for its size; all links have one.
pub(crate) fn put_links(links: &[Link], entries: usize, out: &mut [u8])
    requires sound { all_sound entries links.now ≡ true }
    requires few { entries ≤ 128 }
    requires room { length out.old ≡ 7 * length links.now }
    ensures { out.new ≡ links_bytes links.now }
{
    let mut at = 0;
    for link in links {
        let end = at + (HEADING_SIZE + LINK_SIZE);
        put_link(*link, &mut out[at..end]);
        at = end;
    }
}
