// Days that are the same, and days that do not exist.
use crate::values::day;
use kinds::calendar::Calendar::{Gregorian, Julian};
use kinds::calendar::UnknownCalendar;

#[test]
fn numbers(rt: HostRuntime) {
    let rows = [
        (day(Gregorian, 1900, 1, 1), 1),
        (day(Julian, 1900, 1, 1), 13),
        (day(Julian, 1900, 2, 29), 72),
        (day(Gregorian, 2001, 3, 4), 36953),
        (day(Julian, 2001, 2, 19), 36953),
        (day(Julian, 2023, 12, 25), 45297),
        (day(Gregorian, 2024, 1, 7), 45297),
        (day(Gregorian, 2199, 12, 31), 109573),
    ];
    for (day, number) in rows {
        assert_eq!(rt; day.number(), number);
    }
}

// That printing can succeed, which no contract says.
#[test]
fn printed(rt: HostRuntime) {
    let text = UnknownCalendar(7).to_string(rt.alloc());
    assert!(rt; text.is_ok_and(|text| text.as_str() == "no calendar has the number 7"));
}

// Two dates, and whether they are one day. Fields out of range stand for some day.
#[test]
fn sameness(rt: HostRuntime) {
    let rows = [
        (day(Julian, 2023, 12, 25), day(Gregorian, 2024, 1, 7), true),
        (
            day(Julian, 2023, 12, 25),
            day(Gregorian, 2023, 12, 25),
            false,
        ),
        (day(Julian, 2023, 2, 31), day(Julian, 2023, 2, 3), true),
        (
            day(Gregorian, 1899, 0, 0),
            day(Gregorian, 2199, 12, 31),
            true,
        ),
        (
            day(Gregorian, 2200, 13, 32),
            day(Gregorian, 1900, 1, 1),
            true,
        ),
    ];
    for (place, (first, second, same)) in rows.into_iter().enumerate() {
        assert!(rt; (first == second) == same, "row {place}");
        assert!(rt; (first != second) != same, "row {place}");
    }
}

#[test]
fn existence(rt: HostRuntime) {
    let rows = [
        (day(Julian, 1900, 2, 29), true),
        (day(Gregorian, 1900, 2, 29), false),
        (day(Gregorian, 2000, 2, 29), true),
        (day(Gregorian, 2023, 2, 29), false),
        (day(Gregorian, 2023, 13, 1), false),
        (day(Gregorian, 2023, 4, 31), false),
        (day(Gregorian, 2023, 4, 0), false),
        (day(Julian, 1899, 12, 31), false),
        (day(Julian, 2200, 1, 1), false),
    ];
    for (place, (day, exists)) in rows.into_iter().enumerate() {
        assert!(rt; day.exists() == exists, "row {place}");
    }
}
