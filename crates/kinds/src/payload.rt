// What the payloads of all kinds share: numbers kept in a range, and bytes written to the front of a buffer.
ghost use Rattle.std.specs.Prelude.{◌≡◌, ℕ, ◌<◌, ◌≤◌};
ghost use Rattle.kinds.specs.Payloads.{overlaid};
ghost use Rattle.kinds.specs.Ranges.{within};

// A number from 1 to `most`: `n` itself where it is one.
pub(crate) fn kept_within(most: u16, n: u16) -> u16
    requires { 0 < most }
    ensures is { result ≡ within most n }
    ensures high { result ≤ most }
{
    if n == 0 { most } else { (n - 1) % most + 1 }
}

// Copies the bytes to the front of `out`, as far as there is room.
pub(crate) fn copy_front(bytes: &[u8], out: &mut [u8])
    ensures { out.new ≡ overlaid bytes.now out.old }
{
    let n = bytes.len().min(out.len());
    out[..n].copy_from_slice(&bytes[..n]);
}
