// The Gregorian and the Julian calendar: leap years and months.
ghost use Rattle.std.specs.Prelude.{◌≡◌, ℕ, ◌≤◌, ◌++◌, Some, codes, decimal};
ghost use Rattle.kinds.specs.Calendars.{leap, month_length, days_before, calendar_from};

use std::error::Error;
use std::fmt;

/// The first year that a day may have.
pub const FIRST_YEAR: u16 = 1900;

/// The last one.
pub const LAST_YEAR: u16 = 2199;

pub(crate) const YEARS: u16 = LAST_YEAR - FIRST_YEAR + 1;

/// A file tells the calendar by its number.
#[derive(Clone, Copy, PartialEq, Eq, Debug)]
pub enum Calendar {
    Gregorian = 0,
    Julian = 1,
}

/// A byte that is no calendar's number.
#[derive(Clone, Copy, PartialEq, Eq, Debug)]
pub struct UnknownCalendar(pub u8);

// The numbers stand here again, as std makes no case out of a number.
impl TryFrom<u8> for Calendar {
    type Error = UnknownCalendar;

    ghost try_from_gives = { λ byte r. r ≡ calendar_from byte };

    fn try_from(byte: u8) -> Result<Self, UnknownCalendar> {
        match byte {
            0 => Ok(Calendar::Gregorian),
            1 => Ok(Calendar::Julian),
            _ => Err(UnknownCalendar(byte)),
        }
    }
}

impl fmt::Display for UnknownCalendar {
    ghost output = { λ e. Some (codes "no calendar has the number " ++ decimal e.0) };

    fn fmt<W: fmt::Write>(&self, f: &mut fmt::Formatter<W>) -> fmt::Result {
        write!(f, "no calendar has the number {}", self.0)
    }
}

impl Error for UnknownCalendar {}

impl Calendar {
    /// Whether a year is a leap year.
    pub fn is_leap(self, year: u16) -> bool
        ensures { result ≡ leap self year }
    {
        match self {
            Calendar::Gregorian => year % 4 == 0 && (year % 100 != 0 || year % 400 == 0),
            Calendar::Julian => year % 4 == 0,
        }
    }

    /// How many days a month has: 0 where the number is no month's.
    pub fn month_length(self, year: u16, month: u8) -> u8
        ensures { result ≡ month_length (leap self year) month }
    {
        match month {
            1 | 3 | 5 | 7 | 8 | 10 | 12 => 31,
            4 | 6 | 9 | 11 => 30,
            2 if self.is_leap(year) => 29,
            2 => 28,
            _ => 0,
        }
    }

    // The days of a year before a month.
    pub(crate) fn days_before(self, year: u16, month: u8) -> u16
        requires { month ≤ 12 }
        ensures { result ≡ days_before (leap self year) month }
    {
        (1..month)
            .map(|earlier| u16::from(self.month_length(year, earlier)))
            .sum()
    }
}
