// What it is to be a kind of value.
ghost use Rattle.std.specs.Prelude.{◌≡◌, ℕ, ◌<◌, Bool, true, List, length, IfSome, if◌then◌else◌, Some, None};
ghost use Rattle.kinds.specs.Payloads.{Shape, fitting, valid, overlaid};

/// How the values of a kind stand in a file.
pub trait Payload<V> {
    // The kind's number, the lengths that a payload may have, and which payloads of such a length stand for a value.
    ghost shape: { Shape };

    // The payload of a value.
    ghost encoded: { V → List ℕ };

    // The value that a valid payload is read as.
    ghost decoded: { List ℕ → V };

    // Whether two values agree in all that a file keeps of them.
    ghost agree: { V → V → Type 0 };

    // Values with one payload agree.
    ghost known: { (x y : V) → encoded x ≡ encoded y → agree x y };

    /// Whether a payload may have this length.
    fn fits(length: usize) -> bool
        ensures { result ≡ fitting shape length };

    /// The value that a payload stands for, if it is valid.
    fn decode(payload: &[u8]) -> Option<V>
        ensures value { result ≡ (if valid shape payload.now then Some (decoded payload.now) else None) }
        ensures back { IfSome result (λ x. encoded x ≡ payload.now) };

    /// How many bytes the payload of a value has, which a record tells in two bytes. Whatever the fields hold, the payload is a valid one.
    fn size(value: &V) -> usize
        ensures small { result < 65536 }
        ensures is { result ≡ length (encoded value.now) }
        ensures valid { valid shape (encoded value.now) ≡ true };

    /// Writes the payload of a value to the front, as far as there is room.
    fn write(value: &V, out: &mut [u8])
        ensures { out.new ≡ overlaid (encoded value.now) out.old };
}

/// What the entries of a book hold, and when two values are the same: where `==` says so. Whatever the fields of a value are, it stands for a value of the kind: there is no invariant.
pub trait Kind: Copy + Eq {
    // The number by which the head of a file names the kind.
    ghost NUMBER: { ℕ };

    const NUMBER: u16;

    // How values stand in a file.
    type Payload: Payload<Self>;

    // The shape of the payloads has the kind's number.
    ghost numbered: { NUMBER ≡ Self.Payload.Payload.shape.number };

    // Values that agree in all that a file keeps of them are the same.
    ghost kept: { (x y : Self) → Self.Payload.Payload.agree x y → Self.eq x y ≡ true };
}
