//! Examples that are proved of the definitions, in one table.
#![tactic(auto)]

ghost use Rattle.std.specs.Prelude.{◌≡◌, map};
ghost use Rattle.settled.specs.Settled.{said, table, Settled};

use kinds::calendar::Calendar;
use kinds::day::Day;
use samples::books::ALL_SOULS_FILE;

/// What the definitions say of a wording, a file or a date.
pub enum Example {
    // A text is no expression, and is refused by this number at this place.
    NoExpression {
        wording: &'static str,
        number: u8,
        place: usize,
    },
    // These bytes are the file of All Souls.
    File(&'static [u8]),
    // Over All Souls a wording joins just these pairs, in their order, each by so many steps; the
    // tally is their number.
    Joins {
        wording: &'static str,
        pairs: &'static [(usize, usize, u32)],
        tally: usize,
    },
    // A date has this day number.
    Dated {
        day: Day,
        number: u32,
    },
    // There is no such date, and a file of it is refused by this number at this place.
    NoDay {
        day: Day,
        number: u8,
        place: usize,
    },
}

const EXAMPLES: [Example; 14] = [
    Example::NoExpression {
        wording: "",
        number: 21,
        place: 0,
    },
    Example::NoExpression {
        wording: "a|",
        number: 21,
        place: 2,
    },
    Example::NoExpression {
        wording: "a)",
        number: 21,
        place: 1,
    },
    Example::File(ALL_SOULS_FILE),
    Example::Joins {
        wording: "(c+)=",
        pairs: &[(0, 1, 1), (0, 3, 3), (1, 3, 2)],
        tally: 3,
    },
    Example::Joins {
        wording: "(c=)+",
        pairs: &[(0, 1, 1)],
        tally: 1,
    },
    Example::Joins {
        wording: "((c+)~c)=",
        pairs: &[(0, 3, 3), (1, 3, 2)],
        tally: 2,
    },
    Example::Joins {
        wording: "c=|p",
        pairs: &[(0, 1, 1), (0, 3, 1)],
        tally: 2,
    },
    Example::Joins {
        wording: "0~",
        pairs: &[],
        tally: 0,
    },
    Example::Joins {
        wording: "c*",
        pairs: &[
            (0, 0, 0),
            (0, 1, 1),
            (0, 2, 2),
            (0, 3, 3),
            (1, 1, 0),
            (1, 2, 1),
            (1, 3, 2),
            (2, 2, 0),
            (2, 3, 1),
            (3, 3, 0),
        ],
        tally: 10,
    },
    Example::Dated {
        day: Day {
            calendar: Calendar::Julian,
            year: 2023,
            month: 12,
            date: 25,
        },
        number: 45_297,
    },
    Example::Dated {
        day: Day {
            calendar: Calendar::Gregorian,
            year: 2024,
            month: 1,
            date: 7,
        },
        number: 45_297,
    },
    Example::Dated {
        day: Day {
            calendar: Calendar::Julian,
            year: 1900,
            month: 2,
            date: 29,
        },
        number: 72,
    },
    Example::NoDay {
        day: Day {
            calendar: Calendar::Gregorian,
            year: 1900,
            month: 2,
            date: 29,
        },
        number: 14,
        place: 6,
    },
];

/// The examples of the table, all of which hold.
#[tactic(auto, using(crate::proofs::Checks::settled))]
pub fn settled_examples() -> [Example; 14]
    ensures is { map said result ≡ table }
    ensures settled { Settled (map said result) }
{
    EXAMPLES
}
