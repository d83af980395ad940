// Days, kind 2: days of the Gregorian or the Julian calendar, from 1900 to 2199.
ghost use Rattle.std.specs.Prelude.{◌≡◌, ℕ, ◌<◌, ◌≤◌, if◌then◌else◌, Some, None, nat_le};
ghost use Rattle.std.proofs.Common.{rules, refl};
ghost use Rattle.std.specs.Cmp.Rules.{comparing};
ghost use Rattle.kinds.specs.Agreement.{day_known, day_kept};
ghost use Rattle.kinds.specs.Days.{year_of, month_of, date_of, day_number, same_day, exists, first_day, day_bytes, day_of, day_shape, SameDate};

use crate::calendar::{Calendar, FIRST_YEAR, LAST_YEAR, YEARS};
use crate::kind::{Kind, Payload};
use crate::payload::{copy_front, kept_within};

// The bytes of a payload.
const PAYLOAD_SIZE: usize = 5;

/// A day of a month of a year. Fields that are no day's stand for some day all the same.
#[derive(Clone, Copy)]
pub struct Day {
    pub calendar: Calendar,
    pub year: u16,
    pub month: u8,
    pub date: u8,
}

impl Day {
    /// Whether the fields, as they are, are those of a day from 1900 to 2199.
    pub fn exists(&self) -> bool
        ensures { result ≡ exists self.now.calendar self.now.year self.now.month self.now.date }
    {
        (FIRST_YEAR..=LAST_YEAR).contains(&self.year)
            && (1..=12).contains(&self.month)
            && (1..=self.calendar.month_length(self.year, self.month)).contains(&self.date)
    }

    // The year, the month and the day of the month that the fields stand for.
    fn in_year(&self) -> u16
        ensures { result ≡ year_of self.now }
    {
        FIRST_YEAR - 1 + kept_within(YEARS, self.year.saturating_sub(FIRST_YEAR - 1))
    }

    fn in_month(&self) -> u8
        ensures { result ≡ month_of self.now }
    {
        kept_within(12, u16::from(self.month)) as u8
    }

    fn on_date(&self) -> u8
        ensures { result ≡ date_of self.now }
    {
        let length = self.calendar.month_length(self.in_year(), self.in_month());
        kept_within(u16::from(length), u16::from(self.date)) as u8
    }

    /// The days up to this one, counted from 1 January 1900 of the Gregorian calendar, which is 1.
    pub fn number(&self) -> u32
        ensures { result ≡ day_number self.now }
    {
        let year = self.in_year();
        let before = self.calendar.days_before(year, self.in_month());
        self.calendar.new_year(year) + u32::from(before) + u32::from(self.on_date() - 1)
    }

    fn payload(&self) -> [u8; PAYLOAD_SIZE]
        ensures { result ≡ day_bytes self.now }
    {
        let [low, high] = self.in_year().to_le_bytes();
        [
            self.calendar as u8,
            low,
            high,
            self.in_month(),
            self.on_date(),
        ]
    }
}

// The first day that exists.
impl Default for Day {
    ghost is_default = { λ d. d ≡ first_day };

    fn default() -> Day {
        Day {
            calendar: Calendar::Gregorian,
            year: FIRST_YEAR,
            month: 1,
            date: 1,
        }
    }
}

// By the day number, as one day has a date in each calendar.
impl PartialEq for Day {
    ghost eq = { same_day };

    ghost laws = { Prim.search (comparing, rules) };

    fn eq(&self, other: &Day) -> bool {
        self.number() == other.number()
    }
}

impl Eq for Day {
    ghost laws = { Prim.search (comparing, rules) };
}

/// The payload of a day: the calendar, the year in two bytes, the month and the day of the month.
pub struct DayPayload;

impl Payload<Day> for DayPayload {
    ghost shape = { day_shape };

    ghost encoded = { day_bytes };

    ghost decoded = { day_of };

    ghost agree = { SameDate };

    ghost known = { day_known };

    fn fits(length: usize) -> bool {
        length == PAYLOAD_SIZE
    }

    fn decode(payload: &[u8]) -> Option<Day> {
        let &[calendar, low, high, month, date] = payload else {
            return None;
        };
        let day = Day {
            calendar: Calendar::try_from(calendar).ok()?,
            year: u16::from_le_bytes([low, high]),
            month,
            date,
        };
        day.exists().then_some(day)
    }

    fn size(_value: &Day) -> usize {
        PAYLOAD_SIZE
    }

    fn write(value: &Day, out: &mut [u8]) {
        copy_front(&value.payload(), out);
    }
}

impl Kind for Day {
    ghost NUMBER = { 2 };

    const NUMBER: u16 = 2;

    type Payload = DayPayload;

    ghost numbered = { refl };

    ghost kept = { day_kept };
}
