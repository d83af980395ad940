// The lines of an answer, and of a refusal.
ghost use Rattle.std.specs.Prelude.{◌≡◌, ℕ, ◌+◌, ◌*◌, ◌<◌, ◌≤◌, ◌++◌, length, flat_map};
ghost use Rattle.listing.specs.Lines.{refusal_line, first_line, pair_line, long_line, newline, step_text, most_line, most_step, Lined};
ghost use Rattle.listing.specs.Puts.{PutAt};

use itoa::Buffer;
use languages::step::Step;
use refusals::Refusal;

/// The line of a refusal: its number and its place, as `refused 13 at 6`.
pub fn refusal_line(refusal: Refusal, out: &mut [u8]) -> Result<usize, Refusal>
    ensures lined { Lined (refusal_line refusal) out.old out.new result }
    ensures short { length (refusal_line refusal) ≤ most_line }
{
    put_line(
        &[
            "refused ",
            Buffer::new().format(refusal.number()),
            " at ",
            Buffer::new().format(refusal.place()),
            "\n",
        ],
        out,
    )
}

/// The first line of an answer: how many entries the book has, and how many pairs are joined, as `entries 4 pairs 3`.
pub fn first_line(entries: usize, pairs: usize, out: &mut [u8]) -> Result<usize, Refusal>
    ensures lined { Lined (first_line entries pairs) out.old out.new result }
    ensures short { length (first_line entries pairs) ≤ most_line }
{
    put_line(
        &[
            "entries ",
            Buffer::new().format(entries),
            " pairs ",
            Buffer::new().format(pairs),
            "\n",
        ],
        out,
    )
}

/// The line of a joined pair: its entries, how many steps a path has, and the path, as `0 2 2 0c1c2`.
pub fn pair_line(
    u: usize,
    v: usize,
    count: usize,
    path: &[Step],
    out: &mut [u8],
) -> Result<usize, Refusal>
    ensures lined { Lined (pair_line u v count path.now) out.old out.new result }
    ensures short { length (pair_line u v count path.now) ≤ most_line + most_step * length path.now }
{
    put_path(
        &[
            Buffer::new().format(u),
            " ",
            Buffer::new().format(v),
            " ",
            Buffer::new().format(count),
            " ",
            Buffer::new().format(u),
        ],
        path,
        out,
    )
}

/// The line of a pair whose paths are all long, as `0 2 long`.
pub fn long_line(u: usize, v: usize, out: &mut [u8]) -> Result<usize, Refusal>
    ensures lined { Lined (long_line u v) out.old out.new result }
    ensures short { length (long_line u v) ≤ most_line }
{
    put_line(
        &[
            Buffer::new().format(u),
            " ",
            Buffer::new().format(v),
            " long\n",
        ],
        out,
    )
}

// Puts the pieces of a line behind each other at the front of a buffer. `write!` would not do: no contract says when a writer fails, and a refusal has to leave the buffer as it was.
fn put_line(pieces: &[&str], out: &mut [u8]) -> Result<usize, Refusal>
    requires { length (flat_map (λ piece. piece.now) pieces.now) ≤ usize.MAX }
    ensures { Lined (flat_map (λ piece. piece.now) pieces.now) out.old out.new result }
{
    let size = pieces_size(pieces);
    if out.len() < size {
        return Err(Refusal::TextTooShort);
    }
    put_pieces(pieces, out);
    Ok(size)
}

// Puts the pieces of a line, then the steps of a path, and the end of the line, in the same way.
#[tactic(auto, using(crate::proofs::Putting::putting))]
fn put_path(pieces: &[&str], path: &[Step], out: &mut [u8]) -> Result<usize, Refusal>
    requires { length (flat_map (λ piece. piece.now) pieces.now) < most_line }
    ensures lined { Lined (flat_map (λ piece. piece.now) pieces.now ++ flat_map step_text path.now ++ newline) out.old out.new result }
    ensures short { length (flat_map step_text path.now) ≤ most_step * length path.now }
{
    let length = pieces_size(pieces) + path_size(path) + 1;
    if out.len() < length {
        return Err(Refusal::TextTooShort);
    }
    let mut at = put_pieces(pieces, out);
    for step in path {
        at = put_step(*step, at, out);
    }
    put(b"\n", at, out);
    Ok(length)
}

// How many bytes pieces have.
fn pieces_size(pieces: &[&str]) -> usize
    requires { length (flat_map (λ piece. piece.now) pieces.now) ≤ usize.MAX }
    ensures { result ≡ length (flat_map (λ piece. piece.now) pieces.now) }
{
    pieces.iter().map(|piece| piece.len()).sum()
}

// How many bytes the texts of steps have. By a loop: a proof knows of each step that its entry is a number of the machine, and so that the sum is one.
fn path_size(path: &[Step]) -> usize
    ensures is { result ≡ length (flat_map step_text path.now) }
    ensures small { result ≤ most_step * length path.now }
{
    let mut size = 0;
    for step in path {
        size += 1 + Buffer::new().format(step.entry).len();
    }
    size
}

// Puts the text of a step at a place of a buffer in which it fits, and tells where it ends.
#[tactic(auto, using(crate::proofs::Putting::putting))]
fn put_step(step: Step, at: usize, out: &mut [u8]) -> usize
    requires { at + length (step_text step) ≤ length out.old }
    ensures { PutAt (step_text step) at result out.old out.new }
{
    let entry = put(&[step.letter], at, out);
    put(Buffer::new().format(step.entry).as_bytes(), entry, out)
}

// Puts pieces behind each other at the front of a buffer in which they fit, and tells where they end.
#[tactic(auto, using(crate::proofs::Putting::putting))]
fn put_pieces(pieces: &[&str], out: &mut [u8]) -> usize
    requires { length (flat_map (λ piece. piece.now) pieces.now) ≤ length out.old }
    ensures { PutAt (flat_map (λ piece. piece.now) pieces.now) 0 result out.old out.new }
{
    let mut at = 0;
    for piece in pieces {
        at = put(piece.as_bytes(), at, out);
    }
    at
}

// Puts a piece at a place of a buffer in which it fits, and tells where it ends. By place: after a loop that splits the buffer, a proof knows no more than its length.
fn put(piece: &[u8], at: usize, out: &mut [u8]) -> usize
    requires { at + length piece.now ≤ length out.old }
    ensures { PutAt piece.now at result out.old out.new }
{
    let end = at + piece.len();
    out[at..end].copy_from_slice(piece);
    end
}
