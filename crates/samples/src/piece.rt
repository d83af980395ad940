// Book files put together from pieces, sound or not.
ghost use Rattle.std.specs.Prelude.{◌≡◌, ℕ, ◌<◌, ◌≤◌, ◌++◌, length, take, IfOk, OnOk};
ghost use Rattle.files.specs.Encoding.{framed};
ghost use Rattle.samples.specs.Pieces.{piece_bytes, file_of};

use std::alloc::{AllocError, Global};

// The most bytes of a name that are taken.
const MOST_NAME: usize = 255;

const HEAD: u16 = 1;

const ENTRY: u16 = 2;

const LINK: u16 = 3;

/// A record of a file, or other bytes that stand in one.
#[derive(Clone, Copy)]
pub enum Piece<'a> {
    // The head of a book whose values are of the kind with this number.
    Head(u16),
    // An entry with this name, of at most 255 bytes; of a longer one, with its front.
    Name(&'a [u8]),
    // An entry with a day: the number of a calendar, a year, a month and a day of the month.
    Day(u8, u16, u8, u8),
    // A link: from, letter and to.
    Link(u8, u8, u8),
    // Bytes as they stand, of a record that is cut or has another shape.
    Bytes(&'a [u8]),
}

// As much of a text as a name takes.
fn front(text: &[u8]) -> &[u8]
    ensures is { result.now ≡ take 255 text.now }
    ensures small { length result.now ≤ 255 }
{
    if text.len() > MOST_NAME {
        &text[..MOST_NAME]
    } else {
        text
    }
}

// Appends a record.
fn push_record(file: &mut Vec<u8>, kind: u16, payload: &[u8]) -> Result<(), AllocError>
    requires { length payload.now < 65536 }
    ensures { OnOk result (file.new.items ≡ file.old.items ++ framed kind payload.now) }
{
    let [size_low, size_high] = (payload.len() as u16).to_le_bytes();
    let [kind_low, kind_high] = kind.to_le_bytes();
    file.extend_from_slice(&[size_low, size_high, kind_low, kind_high])?;
    file.extend_from_slice(payload)
}

impl Piece<'_> {
    // Appends the bytes of the piece.
    fn push_to(&self, file: &mut Vec<u8>) -> Result<(), AllocError>
        ensures { OnOk result (file.new.items ≡ file.old.items ++ piece_bytes self.now) }
    {
        match *self {
            Piece::Head(number) => push_record(file, HEAD, &number.to_le_bytes()),
            Piece::Name(text) => push_record(file, ENTRY, front(text)),
            Piece::Day(calendar, year, month, date) => {
                let [low, high] = year.to_le_bytes();
                push_record(file, ENTRY, &[calendar, low, high, month, date])
            }
            Piece::Link(from, letter, to) => push_record(file, LINK, &[from, letter, to]),
            Piece::Bytes(bytes) => file.extend_from_slice(bytes),
        }
    }
}

/// The file of some pieces, in their order.
pub fn file_of(alloc: Global, pieces: &[Piece]) -> Result<Vec<u8>, AllocError>
    ensures { IfOk result (λ file. file.items ≡ file_of pieces.now) }
{
    let mut file = Vec::new(alloc);
    for piece in pieces {
        piece.push_to(&mut file)?;
    }
    Ok(file)
}
