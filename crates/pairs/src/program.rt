// The program from its input to its output, over any reader and any writer.
ghost use Rattle.std.specs.Prelude.{◌≡◌, ℕ, ◌+◌, ◌≤◌, length, take, IfSome, IfOk};
ghost use Rattle.asking.specs.Answers.{text_length};
ghost use Rattle.asking.specs.Input.{most_input, most_text};
ghost use Rattle.pairs.specs.Program.{Ends};
ghost use Rattle.pairs.specs.Steps.{DueBy};

use crate::failure::Failure;
use crate::writing::write_text;
use asking::answer::{Answer, answer_to};
use asking::input::MOST_INPUT;
use asking::room::MOST_TEXT;
use std::alloc::{AllocError, Global};
use std::io;
use std::io::{Read, Write};

// Reads what there is, but at most one byte more than the program takes: that is enough to refuse.
fn read_input<R: Read + Drop>(reader: R, heap: Global) -> io::Result<Vec<u8>>
    ensures { IfOk result (λ input. IfSome (R.remaining reader) (λ all. input.items ≡ take (most_input + 1) all)) }
{
    let mut input = Vec::new(heap);
    reader.take(MOST_INPUT as u64 + 1).read_to_end(&mut input)?;
    Ok(input)
}

// A buffer that has room for the longest text.
fn room_for_text(heap: Global) -> Result<Vec<u8>, AllocError>
    ensures { IfOk result (λ room. length room.items ≡ most_text) }
{
    vec![in heap; 0; MOST_TEXT]
}

// Puts the text that is due for an input at the front of a buffer that has room for it.
fn put_text(input: &[u8], buffer: &mut [u8]) -> Answer
    requires { length buffer.old ≡ most_text }
    ensures due { DueBy input.now result (take (text_length result) buffer.new) }
    ensures within { text_length result ≤ length buffer.new }
{
    answer_to(input, buffer).unwrap()
}

// Writes the text that is due for an input. Only an answer ends well, so that no script takes a refusal for one.
fn answer_input<W: Write>(input: &[u8], writer: &mut W, heap: Global) -> Result<(), Failure>
    ensures { Ends input.now (W.contents writer.old) (W.contents writer.new) result }
{
    let mut buffer = room_for_text(heap).map_err(io::Error::from)?;
    let text = buffer.as_mut_slice();
    let answer = put_text(input, text);
    write_text(&text[..answer.length()], writer)?;
    match answer {
        Answer::Listed(_) => Ok(()),
        Answer::Refused(_) => Err(Failure::Refused),
    }
}

/// Answers all that a reader gives. The program is this, from standard input to standard output.
pub fn run<R: Read + Drop, W: Write>(reader: R, writer: &mut W, heap: Global) -> Result<(), Failure>
    ensures { IfSome (R.remaining reader) (λ all. Ends all (W.contents writer.old) (W.contents writer.new) result) }
{
    let input = read_input(reader, heap)?;
    answer_input(&input, writer, heap)
}
