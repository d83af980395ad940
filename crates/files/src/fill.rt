// Buffers filled from the records of a file that was checked, so that each payload stands for a value.
// The two loops are not one that takes a closure: the clauses on what each of its calls may return would be longer than the loop.
ghost use Rattle.std.specs.Prelude.{◌≡◌, ℕ, ◌==◌, map, length};
ghost use Rattle.kinds.specs.Payloads.{valid};
ghost use Rattle.files.specs.Reading.{link_of};
ghost use Rattle.files.specs.Walking.{payloads_in, behind, Lies};

use crate::frame::{link_of, split_record};
use graphs::link::Link;
use kinds::kind::{Kind, Payload};

// Fills the entries from as many records at the front of `left`, and gives what lies behind them.
pub(crate) fn fill_entries<'a, K: Kind>(mut left: &'a [u8], entries: &mut [K]) -> &'a [u8]
    requires { Lies (valid K.Payload.Payload.shape) (length entries.old) left.now }
    ensures held { map K.Payload.Payload.encoded entries.new ≡ payloads_in (length entries.old) left.now }
    ensures stored { entries.new ≡ map K.Payload.Payload.decoded (payloads_in (length entries.old) left.now) }
    ensures behind { result.now ≡ behind (length entries.old) left.now }
{
    for entry in entries.iter_mut() {
        let (payload, behind) = split_record(left);
        if let Some(value) = K::Payload::decode(payload) {
            *entry = value;
        }
        left = behind;
    }
    left
}

// Fills the links from the records that are left.
pub(crate) fn fill_links(mut left: &[u8], links: &mut [Link])
    requires { Lies (λ p. length p == 3) (length links.old) left.now }
    ensures { links.new ≡ map link_of (payloads_in (length links.old) left.now) }
{
    for link in links.iter_mut() {
        let (payload, behind) = split_record(left);
        if let Some(value) = link_of(payload) {
            *link = value;
        }
        left = behind;
    }
}
