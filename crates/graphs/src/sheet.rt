// Sheets: some whole months of a Gregorian year.
ghost use Rattle.std.specs.Prelude.{◌≡◌, true, ◌+◌, ◌-◌, ◌*◌, ◌<◌, ◌≤◌, not, [], ◌∷◌, length, SomeIff, IfSome};
ghost use Rattle.refusals.specs.Rows.{ByRows};
ghost use Rattle.refusals.specs.declared.Refusal.TheVariants.{SheetOutOfRange};
ghost use Rattle.graphs.specs.Graphs.{link_at, value_at};
ghost use Rattle.graphs.specs.SheetLaws.{sheet_lawful};
ghost use Rattle.graphs.specs.Sheets.{sheet_in_range, days_of, days_in, sheet_days, entry_of, sheet_graph};

use crate::link::Link;
use crate::source::Source;
use kinds::calendar::{Calendar, FIRST_YEAR, LAST_YEAR};
use refusals::Refusal;
use std::marker::Model;
use std::ops::Range;

// A sheet has at most so many months.
const MOST_MONTHS: u8 = 3;

/// One, two or three months in a row, of a year from 1900 to 2199. Each of their days is an entry, which holds the number of the day within its month.
#[derive(Clone, Copy)]
pub struct Sheet {
    year: u16,
    month: u8,
    count: u8,
}

impl Model for Sheet {
    ghost use Rattle.std.specs.Prelude.{IsTrue};
    ghost use Rattle.graphs.specs.Sheets.{Months, sheet_in_range};

    ghost Value = { Months };

    ghost view = { λ s. record { year = s.year; month = s.month; count = s.count } };

    ghost invariant = { λ s. IsTrue (sheet_in_range s.year s.month s.count) };

    ghost inverse = { λ s. record { year = s.year; month = s.month; count = s.count } };
}

impl Sheet {
    /// The sheet of so many months of a year, from a month on.
    pub fn new(year: u16, month: u8, count: u8) -> Result<Sheet, Refusal>
        ensures { ByRows ((not (sheet_in_range year month count), 18, 0, SheetOutOfRange) ∷ []) result (λ s. s ≡ record { year = year; month = month; count = count }) }
    {
        if (FIRST_YEAR..=LAST_YEAR).contains(&year)
            && (1..=MOST_MONTHS).contains(&count)
            && (1..=13 - count).contains(&month)
        {
            Ok(Sheet { year, month, count })
        } else {
            Err(Refusal::SheetOutOfRange)
        }
    }

    // The sheet's months.
    fn months(&self) -> Range<u8>
        ensures is { result ≡ record { start = self.now.month; end = self.now.month + self.now.count } }
        ensures range { sheet_in_range self.now.year self.now.month self.now.count ≡ true }
    {
        self.month..self.month + self.count
    }

    // How many days a month of the year has.
    fn length_of(&self, month: u8) -> u8
        ensures { result ≡ days_of self.now.year month }
    {
        Calendar::Gregorian.month_length(self.year, month)
    }

    // How many days the sheet has before a month.
    fn days_before(&self, month: u8) -> usize
        ensures few { result ≤ 31 * month }
        ensures is { result ≡ length (sheet_days self.now.year self.now.month (month - self.now.month)) }
    {
        (self.month..month)
            .map(|earlier| usize::from(self.length_of(earlier)))
            .sum()
    }

    // How many days the sheet has.
    fn days(&self) -> usize
        ensures few { result ≤ 93 }
        ensures is { result ≡ length (days_in self.now) }
        ensures range { sheet_in_range self.now.year self.now.month self.now.count ≡ true }
    {
        self.days_before(self.month + self.count)
    }

    // The month and the day of the month that an entry stands for.
    fn day_at(&self, entry: usize) -> Option<(u8, u8)>
        ensures months { IfSome result (λ day. day.0 ≤ 12) }
        ensures is { result ≡ value_at (days_in self.now) entry }
        ensures range { sheet_in_range self.now.year self.now.month self.now.count ≡ true }
    {
        // A loop, since what is left passes from month to month: a `find` would sum the days before each month anew.
        let mut left = entry;
        for month in self.months() {
            let length = usize::from(self.length_of(month));
            if left < length {
                return Some((month, left as u8 + 1));
            }
            left -= length;
        }
        None
    }

    // The entry that stands for a day of a month.
    fn entry_of(&self, month: u8, date: u8) -> Option<usize>
        ensures { result ≡ entry_of (days_in self.now) (month, date) }
    {
        let here = self.months().contains(&month) && (1..=self.length_of(month)).contains(&date);
        here.then(|| self.days_before(month) + usize::from(date - 1))
    }

    // The entry so many days later.
    fn later(&self, entry: usize, steps: usize) -> Option<usize>
        requires { entry + steps ≤ usize.MAX }
        ensures { SomeIff result (entry + steps < length (days_in self.now)) (entry + steps) }
    {
        let later = entry + steps;
        (later < self.days()).then_some(later)
    }
}

// Each answer tells too that the months are in range, as nobody who is lent a sheet sees its invariant.
impl Source for Sheet {
    ghost graph = { λ s. sheet_graph (days_in s) };

    ghost lawful = { λ s. sheet_lawful (days_in s) };

    fn entries(&self) -> usize
        ensures is { result ≡ (sheet_graph (days_in self.now)).entries }
        ensures range { sheet_in_range self.now.year self.now.month self.now.count ≡ true }
    {
        self.days()
    }

    fn places(&self) -> usize
        ensures is { result ≡ length (sheet_graph (days_in self.now)).places }
        ensures range { sheet_in_range self.now.year self.now.month self.now.count ≡ true }
    {
        3 * self.days()
    }

    fn link_at(&self, place: usize) -> Option<Link>
        ensures is { result ≡ link_at (sheet_graph (days_in self.now)) place }
        ensures range { sheet_in_range self.now.year self.now.month self.now.count ≡ true }
    {
        let from = place / 3;
        let (month, date) = self.day_at(from)?;
        let (letter, to) = match place % 3 {
            0 => (b'd', self.later(from, 1)),
            1 => (b'w', self.later(from, 7)),
            _ => (b'm', self.entry_of(month + 1, date)),
        };
        to.map(|to| Link { from, letter, to })
    }

    fn same(&self, u: usize, v: usize) -> bool
        ensures is { result ≡ (sheet_graph (days_in self.now)).same u v }
        ensures range { sheet_in_range self.now.year self.now.month self.now.count ≡ true }
    {
        match (self.day_at(u), self.day_at(v)) {
            (Some((_, first)), Some((_, second))) => first == second,
            _ => false,
        }
    }
}
