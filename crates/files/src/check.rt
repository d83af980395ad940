// The records of a file, checked one after the other.
ghost use Rattle.std.specs.Prelude.{◌≡◌, ℕ, [], ◌∷◌, ◌<◌, ◌≤◌, not, length, take, drop, nat_lt, MatchOption, Some, None};
ghost use Rattle.refusals.specs.Rows.{ByRows};
ghost use Rattle.files.specs.Reading.{size_of, kind_of, rows};
ghost use Rattle.files.specs.Walking.{ReadOn, Surveyed};

use crate::counts::Counts;
use crate::frame::{HEAD_SIZE, LINK_SIZE, RecordKind, link_of};
use kinds::kind::{Kind, Payload};
use refusals::Refusal;

// The heading at the front of some bytes, as the length of a payload and the number of a kind, and what lies behind it.
fn split_heading(left: &[u8]) -> Option<(usize, u16, &[u8])>
    ensures { MatchOption result (length left.now < 4) (λ h. (4 ≤ length left.now) × (h.0 ≡ size_of left.now) × (h.1 ≡ kind_of left.now) × (h.2.now ≡ drop 4 left.now)) }
{
    let [size_low, size_high, kind_low, kind_high, rest @ ..] = left else {
        return None;
    };
    let size = u16::from_le_bytes([*size_low, *size_high]);
    let kind = u16::from_le_bytes([*kind_low, *kind_high]);
    Some((usize::from(size), kind, rest))
}

// A payload of so many bytes, if its kind allows that length, which is looked at first, and what lies behind it. Each kind tells in its own way whether it does.
fn split_payload(rest: &[u8], size: usize, fits: bool, at: usize) -> Result<(&[u8], &[u8]), Refusal>
    ensures { ByRows ((not fits, 13, at, Refusal.LengthUnfit at) ∷ (nat_lt (length rest.now) size, 11, at, Refusal.PayloadCut at) ∷ []) result (λ x. (x.0.now ≡ take size rest.now) × (x.1.now ≡ drop size rest.now)) }
{
    if !fits {
        return Err(Refusal::LengthUnfit { at });
    }
    rest.split_at_checked(size)
        .ok_or(Refusal::PayloadCut { at })
}

// The record at the front of `left`, where `at` is its offset and `read` counts the records before it (`None`: it must be the head). Gives the counts with this record, and what lies behind it.
// Inlined, since two places call it: a call hands its result over through memory.
#[inline(always)]
fn check_record<'a, K: Kind>(
    left: &'a [u8],
    at: usize,
    read: Option<Counts>,
    room: Counts,
) -> Result<(Counts, &'a [u8]), Refusal>
    ensures { ByRows (rows K.Payload.Payload.shape room read at left.now) result (λ x. ReadOn read left.now x.0 x.1.now) }
{
    let Some((size, kind, rest)) = split_heading(left) else {
        return Err(Refusal::HeadingCut { at });
    };
    match (RecordKind::try_from(kind), read) {
        (Ok(RecordKind::Head), None) => {
            let (payload, behind) = split_payload(rest, size, size == HEAD_SIZE, at)?;
            // There are two bytes; a pattern would have an arm that cannot come.
            if u16::from_le_bytes([payload[0], payload[1]]) != K::NUMBER {
                return Err(Refusal::OtherValueKind { at });
            }
            Ok((Counts::default(), behind))
        }
        (Ok(RecordKind::Entry), Some(mut read)) if read.links == 0 => {
            let (payload, behind) = split_payload(rest, size, K::Payload::fits(size), at)?;
            if K::Payload::decode(payload).is_none() {
                return Err(Refusal::NoSuchDay { at });
            }
            if read.entries >= room.entries {
                return Err(Refusal::TooManyEntries { at });
            }
            read.entries += 1;
            Ok((read, behind))
        }
        (Ok(RecordKind::Link), Some(mut read)) => {
            let (payload, behind) = split_payload(rest, size, size == LINK_SIZE, at)?;
            if !link_of(payload).is_some_and(|link| link.is_sound(read.entries)) {
                return Err(Refusal::LinkUnsound { at });
            }
            if read.links >= room.links {
                return Err(Refusal::TooManyLinks { at });
            }
            read.links += 1;
            Ok((read, behind))
        }
        _ => Err(Refusal::RecordMisplaced { at }),
    }
}

// How many entries and links the file has.
pub(crate) fn check<K: Kind>(bytes: &[u8], room: Counts) -> Result<Counts, Refusal>
    ensures { Surveyed K.Payload.Payload.shape room bytes.now result }
{
    let (mut read, mut left) = check_record::<K>(bytes, 0, None, room)?;
    while !left.is_empty() {
        let at = bytes.len() - left.len();
        (read, left) = check_record::<K>(left, at, Some(read), room)?;
    }
    Ok(read)
}
