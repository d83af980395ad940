// A run of calls, accepted and refused, over a book.
use crate::values::{link, step};
use graphs::book::Book;
use kinds::name::Name;
use queries::found::Found;
use refusals::Refusal;
use runs::request::{Answer, Request};
use runs::run::run;
use std::test::Fail;

fn name(letter: u8) -> Name {
    let mut bytes = [0; 128];
    bytes[0] = letter;
    Name { len: 1, bytes }
}

type Names<'a> = Book<'a, Name>;

// A call, and what it answers.
type Row<'a> = (Request<'a, Names<'a>>, Answer);

// An entry was copied three times, and the second copy has another name; `cut` has no more than the first three entries.
fn rows<'a>(book: &'a Names<'a>, cut: &'a Names<'a>) -> [Row<'a>; 21] {
    [
        (
            Request::Evaluate(book),
            Answer::Evaluate(Err(Refusal::QueryBlank)),
        ),
        (Request::Parse(b"(c+)="), Answer::Parse(Ok(()))),
        (
            Request::Next { after: None },
            Answer::Next(Err(Refusal::NotEvaluated)),
        ),
        (Request::Evaluate(book), Answer::Evaluate(Ok(()))),
        (
            Request::Parse(b"c+)"),
            Answer::Parse(Err(Refusal::NotAnExpression { at: 2 })),
        ),
        (Request::Tally, Answer::Tally(Ok(3))),
        (
            Request::Next { after: None },
            Answer::Next(Ok(Some((0, 1)))),
        ),
        (
            Request::Trace {
                u: 0,
                v: 3,
                room: 2,
            },
            Answer::Trace(Err(Refusal::StepsTooShort)),
        ),
        (
            Request::Trace {
                u: 0,
                v: 3,
                room: 3,
            },
            Answer::Trace(Ok(3)),
        ),
        (
            Request::Next {
                after: Some((0, 1)),
            },
            Answer::Next(Ok(Some((0, 3)))),
        ),
        (
            Request::Lookup { u: 0, v: 2 },
            Answer::Lookup(Ok(Found::Absent)),
        ),
        (
            Request::Next {
                after: Some((0, 3)),
            },
            Answer::Next(Ok(Some((1, 3)))),
        ),
        (
            Request::Trace {
                u: 1,
                v: 3,
                room: 9,
            },
            Answer::Trace(Ok(2)),
        ),
        (
            Request::Next {
                after: Some((1, 3)),
            },
            Answer::Next(Ok(None)),
        ),
        (
            Request::Lookup { u: 4, v: 0 },
            Answer::Lookup(Err(Refusal::NoSuchEntry)),
        ),
        (Request::Evaluate(cut), Answer::Evaluate(Ok(()))),
        (Request::Tally, Answer::Tally(Ok(1))),
        (
            Request::Trace {
                u: 0,
                v: 1,
                room: 9,
            },
            Answer::Trace(Ok(1)),
        ),
        (
            Request::Lookup { u: 3, v: 0 },
            Answer::Lookup(Err(Refusal::NoSuchEntry)),
        ),
        (Request::Parse(b"p"), Answer::Parse(Ok(()))),
        (Request::Tally, Answer::Tally(Ok(9))),
    ]
}

fn requests_of<'a>(rows: &[Row<'a>; 21]) -> [Request<'a, Names<'a>>; 21] {
    let mut requests = [Request::Tally; 21];
    for place in 0..21 {
        requests[place] = rows[place].0;
    }
    requests
}

// The last row has no place for its answer.
#[test]
fn mixed(rt: HostRuntime) -> Result<(), Fail> {
    let names = [name(b'a'), name(b'a'), name(b'b'), name(b'a')];
    let links = [link(0, b'c', 1), link(1, b'c', 2), link(2, b'c', 3)];
    let book = Book {
        values: &names,
        links: &links,
    };
    let cut = Book {
        values: &names[0..3],
        links: &links,
    };
    let rows = rows(&book, &cut);
    let requests = requests_of(&rows);
    let mut answers = [Answer::Tally(Ok(9)); 21];
    let mut table = [7; 50];
    let mut steps = [step(b'c', 9); 7];
    let made = run(&requests, &mut table, &mut steps, &mut answers[0..20]);
    assert_eq!(rt; made, 20);
    for (place, (_, wanted)) in rows.iter().enumerate() {
        assert_eq!(rt; answers.get(place), Some(wanted));
    }
    let path = [1, 2, 3, 2, 3, 1, 9].map(|entry| step(b'c', entry));
    assert_eq!(rt; steps, path);
    assert_eq!(rt; &table[48..], [7, 7].as_slice());
    Ok(())
}
