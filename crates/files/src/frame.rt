// The frame of a record: two bytes for the length of its payload, two for its kind, then the payload.
ghost use Rattle.std.specs.Prelude.{◌≡◌, ℕ, ◌+◌, ◌≤◌, ◌==◌, length, drop, if◌then◌else◌, Some, None};
ghost use Rattle.files.specs.Reading.{size_of, payload_of, link_of};
ghost use Rattle.files.specs.Walking.{NamesKind};

use graphs::link::Link;

// The heading, which is what stands before the payload.
pub(crate) const HEADING_SIZE: usize = 4;

// The payload of a head.
pub(crate) const HEAD_SIZE: usize = 2;

// The payload of a link.
pub(crate) const LINK_SIZE: usize = 3;

// The kinds of record, by the numbers that a file has for them.
#[derive(Clone, Copy, PartialEq, Eq, Debug)]
pub(crate) enum RecordKind {
    Head = 1,
    Entry = 2,
    Link = 3,
}

// A number that is no kind's.
#[derive(Clone, Copy, PartialEq, Eq, Debug)]
pub(crate) struct UnknownKind(pub(crate) u16);

// The numbers stand here again, as std makes no case out of a number.
impl TryFrom<u16> for RecordKind {
    type Error = UnknownKind;

    ghost try_from_gives = { NamesKind };

    fn try_from(number: u16) -> Result<Self, UnknownKind> {
        match number {
            1 => Ok(RecordKind::Head),
            2 => Ok(RecordKind::Entry),
            3 => Ok(RecordKind::Link),
            _ => Err(UnknownKind(number)),
        }
    }
}

// The payload of a record that is known to be whole, at the front of some bytes, and what lies behind it. So its heading is there, and is not refused.
pub(crate) fn split_record(left: &[u8]) -> (&[u8], &[u8])
    requires { 4 + size_of left.now ≤ length left.now }
    ensures payload { result.0.now ≡ payload_of left.now }
    ensures behind { result.1.now ≡ drop (4 + size_of left.now) left.now }
{
    let size = u16::from_le_bytes([left[0], left[1]]);
    left[HEADING_SIZE..].split_at(usize::from(size))
}

// The link in the payload of its record.
pub(crate) fn link_of(payload: &[u8]) -> Option<Link>
    ensures { result ≡ (if length payload.now == 3 then Some (link_of payload.now) else None) }
{
    let [from, letter, to] = payload else {
        return None;
    };
    Some(Link {
        from: usize::from(*from),
        letter: *letter,
        to: usize::from(*to),
    })
}
