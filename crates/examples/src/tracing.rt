// Paths that are traced, and every refusal of a trace.
use crate::values::step;
use files::read::read_book;
use graphs::book::Book;
use graphs::link::Link;
use kinds::name::Name;
use languages::step::Step;
use queries::Query;
use queries::found::Found;
use refusals::Refusal;
use samples::books::ALL_SOULS_FILE;
use std::test::Fail;

const UNWRITTEN: Step = Step {
    letter: b'x',
    entry: 9,
};

// Evaluates a wording over All Souls.
fn evaluate(query: &mut Query, wording: &[u8], table: &mut [u32]) -> Result<(), Refusal> {
    let mut names = [Name::default(); 4];
    let mut links = [Link::default(); 4];
    read_book::<Name>(ALL_SOULS_FILE, &mut names, &mut links)?;
    let book = Book {
        values: &names,
        links: &links,
    };
    query.parse(wording)?;
    query.evaluate(&book, table)
}

// Whether this is the path of a pair where the wording is asked of All Souls, and the buffer behind it is as it was.
fn leads(wording: &[u8], u: usize, v: usize, path: &[Step]) -> Result<bool, Refusal> {
    let mut table = [0; 128];
    let mut query = Query::new();
    evaluate(&mut query, wording, &mut table)?;
    let mut steps = [UNWRITTEN; 4];
    let count = query.trace(&table, u, v, &mut steps)?;
    Ok(count < 4 && &steps[..count] == path && steps[3] == UNWRITTEN)
}

// A wording, the ends of a pair, and the steps of its path.
#[test]
fn all_souls(rt: HostRuntime) -> Result<(), Fail> {
    let rows: [(&[u8], usize, usize, &[Step]); 8] = [
        (b"(c+)~", 0, 2, &[step(b'c', 1), step(b'c', 2)]),
        (b"(c+)=", 1, 3, &[step(b'c', 2), step(b'c', 3)]),
        (b"cc|p", 0, 3, &[step(b'p', 3)]),
        (b"p|cc", 0, 2, &[step(b'c', 1), step(b'c', 2)]),
        (
            b"((c+)~c)=",
            0,
            3,
            &[step(b'c', 1), step(b'c', 2), step(b'c', 3)],
        ),
        (b"c*", 1, 2, &[step(b'c', 2)]),
        (b"c*", 1, 1, &[]),
        (b"0", 2, 2, &[]),
    ];
    for (place, (wording, u, v, path)) in rows.into_iter().enumerate() {
        assert!(rt; leads(wording, u, v, path)?, "row {place}");
    }
    Ok(())
}

// The calls that docs/CALLS.md lists.
#[test]
fn listed_calls(rt: HostRuntime) -> Result<(), Fail> {
    let mut table = [0; 48];
    let mut steps = [UNWRITTEN; 4];
    let mut query = Query::new();
    evaluate(&mut query, b"(c+)=", &mut table)?;
    assert_eq!(rt; query.tally(&table), Ok(3));
    assert_eq!(rt; query.next(&table, None), Ok(Some((0, 1))));
    assert_eq!(rt; query.lookup(&table, 0, 3), Ok(Found::Steps(3)));
    assert_eq!(rt; query.lookup(&table, 2, 3), Ok(Found::Absent));
    assert_eq!(rt; query.next(&table, Some((1, 3))), Ok(None));
    assert_eq!(rt; query.trace(&table, 1, 3, &mut steps), Ok(2));
    assert_eq!(rt; steps, [step(b'c', 2), step(b'c', 3), UNWRITTEN, UNWRITTEN]);
    assert_eq!(rt; query.trace(&table, 2, 3, &mut steps), Err(Refusal::NoPath));
    Ok(())
}

// Refusals come in the order of the table, and change nothing.
#[test]
fn refusals(rt: HostRuntime) -> Result<(), Fail> {
    let mut table = [0; 48];
    let mut steps = [UNWRITTEN; 4];
    let mut query = Query::new();
    assert_eq!(rt;
        query.trace(&table, 0, 2, &mut steps),
        Err(Refusal::NotEvaluated)
    );
    evaluate(&mut query, b"(c+)~", &mut table)?;
    assert_eq!(rt;
        query.trace(&table[0..47], 0, 4, &mut steps),
        Err(Refusal::NoSuchEntry)
    );
    assert_eq!(rt;
        query.trace(&table[0..47], 0, 2, &mut steps),
        Err(Refusal::TableCut)
    );
    assert_eq!(rt; query.trace(&table, 0, 3, &mut steps), Err(Refusal::NoPath));
    assert_eq!(rt;
        query.trace(&table, 0, 2, &mut steps[0..1]),
        Err(Refusal::StepsTooShort)
    );
    // The cell of the pair for the whole: the test counts more than the repeat inside it.
    table[34] = 3;
    assert_eq!(rt;
        query.trace(&table, 0, 2, &mut steps),
        Err(Refusal::TableAltered)
    );
    table[34] = 1000;
    assert_eq!(rt;
        query.trace(&table, 0, 2, &mut steps),
        Err(Refusal::OnlyLongPaths)
    );
    assert_eq!(rt; steps, [UNWRITTEN; 4]);
    Ok(())
}
