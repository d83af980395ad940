// A text is written by one write after another: of a writer that fails it is then known what it has got.
ghost use Rattle.std.specs.Prelude.{◌≡◌, ℕ, ◌<◌, ◌≤◌, length, take, OnOk, OnErr, IfOk};
ghost use Rattle.std.specs.Io.KnownBytes.{Appends, Keeps};
ghost use Rattle.pairs.specs.Program.{WroteFront};

use std::io;
use std::io::{ErrorKind, Write};

// One write of some bytes, tried again where it is interrupted, and how many of them the writer took.
fn write_some<W: Write>(bytes: &[u8], writer: &mut W) -> io::Result<usize>
    ensures some { IfOk result (λ n. (0 < n) × (n ≤ length bytes.now)) }
    ensures taken { IfOk result (λ n. Appends (W.contents writer.old) (W.contents writer.new) (take n bytes.now)) }
    ensures none { OnErr result (Keeps (W.contents writer.old) (W.contents writer.new)) }
{
    for _ in 0..u64::MAX {
        match writer.write(bytes) {
            Ok(0) => return Err(io::Error::from(ErrorKind::WriteZero)),
            Ok(taken) => return Ok(taken),
            Err(error) if error.kind() == ErrorKind::Interrupted => {}
            Err(error) => return Err(error),
        }
    }
    Err(io::Error::from(ErrorKind::TimedOut))
}

// Writes a whole text and flushes it, or writes some of it where the writer fails.
pub(crate) fn write_text<W: Write>(text: &[u8], writer: &mut W) -> io::Result<()>
    ensures whole { OnOk result (Appends (W.contents writer.old) (W.contents writer.new) text.now) }
    ensures some { OnErr result (WroteFront text.now (W.contents writer.old) (W.contents writer.new)) }
{
    let mut written = 0;
    while written < text.len() {
        written += write_some(&text[written..], writer)?;
    }
    writer.flush()
}
