// The two parts of the program's input, and the value kind that the second tells.
ghost use Rattle.std.specs.Prelude.{◌≡◌, ℕ, ◌==◌};
ghost use Rattle.std.specs.List.{position};
ghost use Rattle.asking.specs.Input.{wording, book_file, value_kind};

/// The program takes at most so many bytes.
pub const MOST_INPUT: usize = 8192;

/// A wording, and the file of the book that it is asked of.
#[derive(Debug, Clone, Copy)]
pub struct Input<'a> {
    pub wording: &'a [u8],
    pub book_file: &'a [u8],
}

// Where the first byte 10 stands.
fn newline_at(input: &[u8]) -> Option<usize>
    ensures { result ≡ position (λ b. b == 10) input.now }
{
    input.iter().position(|byte| *byte == b'\n')
}

/// Splits an input at its first byte 10. One that has none is a wording as a whole, and its book file has no bytes.
pub fn split(input: &[u8]) -> Input<'_>
    ensures wording { result.wording.now ≡ wording input.now }
    ensures book_file { result.book_file.now ≡ book_file input.now }
{
    match newline_at(input) {
        Some(at) => Input {
            wording: &input[..at],
            book_file: &input[at + 1..],
        },
        None => Input {
            wording: input,
            book_file: &[],
        },
    }
}

/// The value kind that the head of a file tells; 0 where the file is too short for a head.
pub fn value_kind(file: &[u8]) -> u16
    ensures { result ≡ value_kind file.now }
{
    match file {
        [_, _, _, _, low, high, ..] => u16::from_le_bytes([*low, *high]),
        _ => 0,
    }
}
