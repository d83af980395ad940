// Names, kind 1: texts of at most 128 bytes, one at least.
ghost use Rattle.std.specs.Prelude.{◌≡◌, ℕ, ◌≤◌, [], ◌∷◌, length};
ghost use Rattle.std.proofs.Common.{rules, refl};
ghost use Rattle.std.specs.Cmp.Rules.{comparing};
ghost use Rattle.kinds.specs.Names.{text, same_name, name_shape, name_of, SameText};
ghost use Rattle.kinds.specs.Ranges.{within};

use crate::kind::{Kind, Payload};
use crate::payload::copy_front;

const MOST_BYTES: usize = 128;

/// A name of 1 to 128 bytes: a `len` out of range stands for some length in it, and what is stored past the end has no influence.
#[derive(Clone, Copy)]
pub struct Name {
    pub len: u8,
    pub bytes: [u8; MOST_BYTES],
}

impl Name {
    /// The bytes of the name.
    pub fn text(&self) -> &[u8]
        ensures is { result.now ≡ text self.now }
        ensures size { length result.now ≡ within 128 self.now.len }
    {
        // As `kept_within`, without its case: a sum with a byte does not wrap, and texts are compared often.
        let size = (usize::from(self.len) + (MOST_BYTES - 1)) % MOST_BYTES + 1;
        &self.bytes[..size]
    }
}

// The name of one byte 0.
impl Default for Name {
    ghost is_default = { λ n. n ≡ name_of (0 ∷ []) };

    fn default() -> Name {
        Name {
            len: 1,
            bytes: [0; MOST_BYTES],
        }
    }
}

// Names are the same when their texts are: the bytes stored past the end do not count.
impl PartialEq for Name {
    ghost eq = { same_name };

    ghost laws = { Prim.search (comparing, rules) };

    fn eq(&self, other: &Name) -> bool {
        self.text() == other.text()
    }
}

impl Eq for Name {
    ghost laws = { Prim.search (comparing, rules) };
}

// The name that a payload stands for: past its end all is 0.
fn name_of(payload: &[u8]) -> Name
    requires low { 1 ≤ length payload.now }
    requires high { length payload.now ≤ 128 }
    ensures is { result ≡ name_of payload.now }
    ensures back { text result ≡ payload.now }
{
    let mut bytes = [0; MOST_BYTES];
    bytes[..payload.len()].copy_from_slice(payload);
    Name {
        len: payload.len() as u8,
        bytes,
    }
}

/// The payload of a name: its bytes.
pub struct NamePayload;

impl Payload<Name> for NamePayload {
    ghost shape = { name_shape };

    ghost encoded = { text };

    ghost decoded = { name_of };

    ghost agree = { SameText };

    ghost known = { λ x y e. e };

    fn fits(length: usize) -> bool {
        (1..=MOST_BYTES).contains(&length)
    }

    fn decode(payload: &[u8]) -> Option<Name> {
        NamePayload::fits(payload.len()).then(|| name_of(payload))
    }

    fn size(value: &Name) -> usize {
        value.text().len()
    }

    fn write(value: &Name, out: &mut [u8]) {
        copy_front(value.text(), out);
    }
}

impl Kind for Name {
    ghost NUMBER = { 1 };

    const NUMBER: u16 = 1;

    type Payload = NamePayload;

    ghost numbered = { refl };

    ghost kept = { λ x y agree. Prim.search (comparing, rules) };
}
