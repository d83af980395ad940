// Sources and layers of them, asked their four questions.
use crate::values::{day, link};
use graphs::book::Book;
use graphs::layers::{Reversed, WithoutLetter};
use graphs::sheet::Sheet;
use graphs::source::Source;
use kinds::calendar::Calendar;
use kinds::kind::Payload;
use kinds::name::NamePayload;
use std::test::Fail;

#[test]
fn february_and_march(rt: HostRuntime) -> Result<(), Fail> {
    let sheet = Sheet::new(2023, 2, 2)?;
    assert_eq!(rt; sheet.entries(), 59);
    assert_eq!(rt; sheet.places(), 177);
    let rows = [
        (0, Some(link(0, b'd', 1))),
        (1, Some(link(0, b'w', 7))),
        (2, Some(link(0, b'm', 28))),
        (83, Some(link(27, b'm', 55))),
        (86, None),
        (174, None),
        (177, None),
    ];
    for (place, wanted) in rows {
        assert_eq!(rt; sheet.link_at(place), wanted);
    }
    for (second, same) in [(28, true), (29, false), (59, false)] {
        assert!(rt; sheet.same(0, second) == same);
    }
    Ok(())
}

#[test]
fn leap_february(rt: HostRuntime) -> Result<(), Fail> {
    let sheet = Sheet::new(2024, 1, 3)?;
    assert_eq!(rt; sheet.entries(), 91);
    assert_eq!(rt; sheet.link_at(3 * 28 + 2), Some(link(28, b'm', 59)));
    assert_eq!(rt; sheet.link_at(3 * 29 + 2), None);
    Ok(())
}

// A year, its first month, how many months, and whether there is such a sheet.
#[test]
fn sheets_in_range(rt: HostRuntime) {
    let rows = [
        (1899, 1, 1, false),
        (2200, 1, 1, false),
        (2023, 0, 1, false),
        (2023, 13, 1, false),
        (2023, 1, 0, false),
        (2023, 1, 4, false),
        (2023, 12, 2, false),
        (2023, 12, 1, true),
    ];
    for (place, (year, month, count, accepted)) in rows.into_iter().enumerate() {
        let met = match Sheet::new(year, month, count) {
            Ok(_) => accepted,
            Err(refusal) => !accepted && refusal.number() == 18 && refusal.place() == 0,
        };
        assert!(rt; met, "row {place}");
    }
}

// A pile of layers over any source, which keeps the links of other letters, turned.
fn turned_without<S: Source>(below: S, letter: u8) -> Reversed<WithoutLetter<S>> {
    Reversed {
        below: WithoutLetter { below, letter },
    }
}

#[test]
fn piles_on_a_book(rt: HostRuntime) {
    let days = [
        day(Calendar::Julian, 2023, 12, 25),
        day(Calendar::Gregorian, 2024, 1, 7),
    ];
    let links = [link(0, b'c', 1), link(1, b'p', 0), link(0, b'c', 2)];
    let pile = turned_without(
        Book {
            values: &days,
            links: &links,
        },
        b'p',
    );
    assert_eq!(rt; pile.entries(), 2);
    assert_eq!(rt; pile.places(), 3);
    let wanted = [Some(link(1, b'c', 0)), None, None, None];
    for (place, link) in wanted.into_iter().enumerate() {
        assert_eq!(rt; pile.link_at(place), link);
    }
    assert!(rt; pile.same(0, 1));
    assert!(rt; !pile.same(0, 2));
}

#[test]
fn piles_on_names(rt: HostRuntime) -> Result<(), Fail> {
    let names = [
        NamePayload::decode(b"All Souls").ok_or("no name")?,
        NamePayload::decode(b"All Soul").ok_or("no name")?,
    ];
    let links = [link(0, b'c', 1)];
    let pile = Reversed {
        below: Reversed {
            below: Book {
                values: &names,
                links: &links,
            },
        },
    };
    assert_eq!(rt; pile.link_at(0), Some(link(0, b'c', 1)));
    assert!(rt; pile.same(1, 1));
    assert!(rt; !pile.same(0, 1));
    Ok(())
}

#[test]
fn piles_on_a_sheet(rt: HostRuntime) -> Result<(), Fail> {
    let pile = WithoutLetter {
        below: turned_without(Sheet::new(2023, 2, 2)?, b'd'),
        letter: b'w',
    };
    assert_eq!(rt; pile.entries(), 59);
    assert_eq!(rt; pile.link_at(0), None);
    assert_eq!(rt; pile.link_at(1), None);
    assert_eq!(rt; pile.link_at(2), Some(link(28, b'm', 0)));
    assert!(rt; pile.same(0, 28));
    Ok(())
}

// The book of three values in docs/SOURCES.md, and the layers over it.
#[test]
fn links_that_read_as_nothing(rt: HostRuntime) {
    let looped = link(2, b'c', 2);
    let links = [link(0, b'a', 1), link(1, b'B', 2), link(2, b'a', 3), looped];
    let book = Book {
        values: &[day(Calendar::Gregorian, 2001, 3, 4); 3],
        links: &links,
    };
    let below = Reversed { below: book };
    let pile = WithoutLetter {
        below,
        letter: b'c',
    };
    let back = Some(link(1, b'a', 0));
    let rows = [
        (Some(link(0, b'a', 1)), back, back),
        (None, None, None),
        (None, None, None),
        (Some(looped), Some(looped), None),
        (None, None, None),
    ];
    for (place, (held, turned, thinned)) in rows.into_iter().enumerate() {
        assert_eq!(rt; book.link_at(place), held);
        assert_eq!(rt; below.link_at(place), turned);
        assert_eq!(rt; pile.link_at(place), thinned);
    }
}
