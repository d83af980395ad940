// Days, links and steps in one line.
use graphs::link::Link;
use kinds::calendar::Calendar;
use kinds::day::Day;
use languages::step::Step;

pub(crate) fn day(calendar: Calendar, year: u16, month: u8, date: u8) -> Day {
    Day {
        calendar,
        year,
        month,
        date,
    }
}

pub(crate) fn link(from: usize, letter: u8, to: usize) -> Link {
    Link { from, letter, to }
}

pub(crate) fn step(letter: u8, entry: usize) -> Step {
    Step { letter, entry }
}
