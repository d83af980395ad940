// Questions evaluated over books, sheets and piles of layers, and every refusal of a query but those of a trace.
use crate::values::{day, link, step};
use graphs::book::Book;
use graphs::layers::{Reversed, WithoutLetter};
use graphs::link::Link;
use graphs::sheet::Sheet;
use kinds::calendar::Calendar;
use queries::Query;
use queries::found::Found;
use refusals::Refusal;
use samples::ring::{RING, ring};
use std::test::Fail;

// The pairs of days in February and March 2023 that are the same day of the month, some weeks apart.
#[test]
fn weeks(rt: HostRuntime) -> Result<(), Fail> {
    let mut table = vec![in rt.alloc(); 7u32; 10800]?;
    let mut query = Query::new();
    query.parse(b"(w+)=")?;
    query.evaluate(&Sheet::new(2023, 2, 2)?, &mut table)?;
    let rows = [
        (None, Some((0, 28))),
        (Some((0, 28)), Some((1, 29))),
        (Some((27, 55)), None),
    ];
    for (after, next) in rows {
        assert_eq!(rt; query.next(&table, after), Ok(next));
    }
    Ok(())
}

#[test]
fn long_way_round(rt: HostRuntime) -> Result<(), Fail> {
    let days = [day(Calendar::Gregorian, 2000, 1, 1); RING];
    let links = ring();
    let book = Book {
        values: &days,
        links: &links,
    };
    let mut table = vec![in rt.alloc(); 0u32; 250000]?;
    let mut query = Query::new();
    query.parse(b"(aaaaaaaa)+")?;
    query.evaluate(&book, &mut table)?;
    assert_eq!(rt; query.tally(&table), Ok(15625));
    let mut steps = [step(b'x', 9); 999];
    assert_eq!(rt; query.trace(&table, 0, 117, &mut steps), Ok(992));
    assert_eq!(rt; steps[991], step(b'a', 117));
    assert_eq!(rt; steps[992].entry, 9);
    assert_eq!(rt;
        query.trace(&table, 0, 0, &mut steps),
        Err(Refusal::OnlyLongPaths)
    );
    Ok(())
}

fn links() -> [Link; 3] {
    [link(0, b'c', 1), link(1, b'c', 2), link(0, b'p', 2)]
}

// A pile answers by the graph that it means.
#[test]
fn pile(rt: HostRuntime) -> Result<(), Fail> {
    let days = [
        day(Calendar::Julian, 2023, 12, 25),
        day(Calendar::Gregorian, 2023, 12, 25),
        day(Calendar::Gregorian, 2024, 1, 7),
    ];
    let pile = Reversed {
        below: WithoutLetter {
            below: Book {
                values: &days,
                links: &links(),
            },
            letter: b'p',
        },
    };
    let mut table = [0; 45];
    let mut query = Query::new();
    query.parse(b"(c+|p)=")?;
    query.evaluate(&pile, &mut table)?;
    assert_eq!(rt; query.lookup(&table, 2, 0), Ok(Found::Steps(2)));
    assert_eq!(rt; query.lookup(&table, 0, 2), Ok(Found::Absent));
    assert_eq!(rt; query.tally(&table), Ok(1));
    Ok(())
}

// Refusals come in the order of the table, and change nothing.
#[test]
fn refusals(rt: HostRuntime) -> Result<(), Fail> {
    let days = [day(Calendar::Gregorian, 2000, 1, 1); 129];
    let large = Book {
        values: &days,
        links: &[],
    };
    let small = Book {
        values: &days[0..3],
        links: &links(),
    };
    let mut table = [7; 18];
    let mut query = Query::new();
    assert_eq!(rt;
        query.evaluate(&large, &mut table),
        Err(Refusal::QueryBlank)
    );
    assert_eq!(rt; query.lookup(&table, 9, 9), Err(Refusal::NotEvaluated));
    query.parse(b"c+")?;
    assert_eq!(rt;
        query.evaluate(&large, &mut table),
        Err(Refusal::SourceTooLarge)
    );
    assert_eq!(rt;
        query.evaluate(&small, &mut table[0..17]),
        Err(Refusal::TableTooShort)
    );
    assert_eq!(rt; table, [7; 18]);
    assert_eq!(rt; query.tally(&table), Err(Refusal::NotEvaluated));
    query.evaluate(&small, &mut table)?;
    assert_eq!(rt;
        query.parse(b"c+)"),
        Err(Refusal::NotAnExpression { at: 2 })
    );
    assert_eq!(rt;
        query.lookup(&table[0..17], 0, 3),
        Err(Refusal::NoSuchEntry)
    );
    assert_eq!(rt; query.lookup(&table[0..17], 0, 2), Err(Refusal::TableCut));
    assert_eq!(rt; query.next(&table, Some((3, 0))), Err(Refusal::NoSuchEntry));
    assert_eq!(rt; query.tally(&table[0..17]), Err(Refusal::TableCut));
    assert_eq!(rt; query.lookup(&table, 0, 2), Ok(Found::Steps(2)));
    query.parse(b"p")?;
    assert_eq!(rt; query.lookup(&table, 0, 2), Err(Refusal::NotEvaluated));
    Ok(())
}
