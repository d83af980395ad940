// Books of the examples, and the file of one of them.
use crate::piece::Piece;

/// The number of each kind of value, as the head of a book has it.
pub const NAMES: u16 = 1;

pub const DAYS: u16 = 2;

/// The number of each calendar, as a day in a file has it.
pub const GREGORIAN: u8 = 0;

pub const JULIAN: u8 = 1;

/// All Souls, copied three times and once cut short.
pub const ALL_SOULS: &[Piece] = &[
    Piece::Head(NAMES),
    Piece::Name(b"All Souls"),
    Piece::Name(b"All Souls"),
    Piece::Name(b"All Soul"),
    Piece::Name(b"All Souls"),
    Piece::Link(0, b'c', 1),
    Piece::Link(1, b'c', 2),
    Piece::Link(2, b'c', 3),
    Piece::Link(0, b'p', 3),
];

/// Its file, of 85 bytes.
pub const ALL_SOULS_FILE: &[u8] =
    b"\x02\x00\x01\x00\x01\x00\x09\x00\x02\x00All Souls\x09\x00\x02\x00All Souls\x08\x00\x02\x00All Soul\x09\x00\x02\x00All Souls\x03\x00\x03\x00\x00c\x01\x03\x00\x03\x00\x01c\x02\x03\x00\x03\x00\x02c\x03\x03\x00\x03\x00\x00p\x03";

/// The book that docs/FIRST.md makes, with a link to an entry that is not there; without that link, its last piece, it is sound.
pub const FIRST: &[Piece] = &[
    Piece::Head(NAMES),
    Piece::Name(b"All Souls"),
    Piece::Name(b"All Soul"),
    Piece::Name(b"All Souls"),
    Piece::Link(0, b'c', 1),
    Piece::Link(1, b'c', 2),
    Piece::Link(2, b'c', 3),
];

/// The book of names that docs/LANGUAGE.md asks.
pub const LENT: &[Piece] = &[
    Piece::Head(NAMES),
    Piece::Name(b"Lent"),
    Piece::Name(b"Lent"),
    Piece::Name(b"Ash"),
    Piece::Name(b"Lent"),
    Piece::Link(0, b'c', 1),
    Piece::Link(1, b'c', 2),
    Piece::Link(2, b'k', 3),
];

/// Christmas by both calendars, the second copied from the first, and the day after it.
pub const CHRISTMAS: &[Piece] = &[
    Piece::Head(DAYS),
    Piece::Day(JULIAN, 2023, 12, 25),
    Piece::Day(GREGORIAN, 2024, 1, 7),
    Piece::Day(GREGORIAN, 2024, 1, 8),
    Piece::Link(0, b'c', 1),
    Piece::Link(1, b'c', 2),
];

/// The book of days in docs/examples/days.txt: each of two days by both calendars, copied one from the other.
pub const TWO_DAYS: &[Piece] = &[
    Piece::Head(DAYS),
    Piece::Day(JULIAN, 2023, 12, 25),
    Piece::Day(GREGORIAN, 2024, 1, 7),
    Piece::Day(GREGORIAN, 2024, 1, 8),
    Piece::Day(JULIAN, 2023, 12, 26),
    Piece::Link(0, b'c', 1),
    Piece::Link(1, b'c', 2),
    Piece::Link(2, b'c', 3),
];
