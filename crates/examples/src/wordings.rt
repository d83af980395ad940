// Wordings that are read, and wordings that are refused at their places.
use expressions::parse::parse;
use expressions::part::Part;
use refusals::Refusal;
use std::test::Fail;

// How many parts a wording has.
fn size(wording: &[u8]) -> Result<usize, Refusal> {
    Ok(parse(wording)?.as_slice().len())
}

fn stops_at(at: usize) -> Result<usize, Refusal> {
    Err(Refusal::NotAnExpression { at })
}

// What goes with what is seen from the numbers: a sign takes the item before it, neighbours join before a `|` parts them, and of three the first two belong together.
#[test]
fn numbering(rt: HostRuntime) -> Result<(), Fail> {
    let parts = parse(b"ab|cd+e*|(0)=~")?;
    let wanted = [
        Part::Letter(b'a'),
        Part::Letter(b'b'),
        Part::Join { left: 0 },
        Part::Letter(b'c'),
        Part::Letter(b'd'),
        Part::Plus,
        Part::Join { left: 3 },
        Part::Letter(b'e'),
        Part::Star,
        Part::Join { left: 6 },
        Part::Either { left: 2 },
        Part::Epsilon,
        Part::Same,
        Part::Differ,
        Part::Either { left: 10 },
    ];
    assert!(rt; parts.as_slice() == wanted.as_slice());
    Ok(())
}

// The parts of a wording that docs/LANGUAGE.md lists.
#[test]
fn listed_parts(rt: HostRuntime) -> Result<(), Fail> {
    let parts = parse(b"ab|(c+)~")?;
    let listed = [
        Part::Letter(b'a'),
        Part::Letter(b'b'),
        Part::Join { left: 0 },
        Part::Letter(b'c'),
        Part::Plus,
        Part::Differ,
        Part::Either { left: 2 },
    ];
    assert!(rt; parts.as_slice() == listed.as_slice());
    Ok(())
}

#[test]
fn places(rt: HostRuntime) {
    let rows: [(&[u8], usize); 14] = [
        (b"", 0),
        (b"a|", 2),
        (b"a)", 1),
        (b"a||b", 2),
        (b"|a", 0),
        (b"+", 0),
        (b"a(+)", 2),
        (b"(a", 2),
        (b"()", 1),
        (b"((a)", 4),
        (b"a b", 1),
        (b"aB", 1),
        (b"a1", 1),
        (b"\xff", 0),
    ];
    for (wording, at) in rows {
        assert_eq!(rt; size(wording), stops_at(at));
    }
}

#[test]
fn limits(rt: HostRuntime) {
    let rows: [(&[u8], Result<usize, Refusal>); 6] = [
        (b"aaaaaaaaaaaaaaaa+", Ok(32)),
        (b"aaaaaaaaaaaaaaaa+*", Err(Refusal::TooManyParts)),
        (&[b'a'; 200], Err(Refusal::TooManyParts)),
        (&[b'a'; 201], Err(Refusal::WordingTooLong)),
        (&[b'('; 201], Err(Refusal::WordingTooLong)),
        (&[b'('; 200], stops_at(200)),
    ];
    for (wording, wanted) in rows {
        assert_eq!(rt; size(wording), wanted);
    }
}

// 99 brackets opened and closed around a letter, and around two.
#[test]
fn deep(rt: HostRuntime) {
    let mut one = [b')'; 201];
    one[0..99].copy_from_slice(&[b'('; 99]);
    one[99] = b'a';
    let mut two = one;
    two[100] = b'a';
    let rows: [(&[u8], Result<usize, Refusal>); 5] = [
        (&one[0..199], Ok(1)),
        (&one[0..198], stops_at(198)),
        (&one[0..200], stops_at(199)),
        (&two[0..200], Ok(3)),
        (&two[0..199], stops_at(199)),
    ];
    for (wording, wanted) in rows {
        assert_eq!(rt; size(wording), wanted);
    }
}
