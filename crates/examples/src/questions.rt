// Questions asked of books, and the whole text of their answers.
use crate::answers::{Row, compare};
use samples::books::{ALL_SOULS, CHRISTMAS, FIRST, LENT, TWO_DAYS};
use std::test::Fail;

#[test]
fn all_souls(rt: HostRuntime) -> Result<(), Fail> {
    let rows: [Row; 7] = [
        (
            b"(c+)~",
            ALL_SOULS,
            b"entries 4 pairs 3\n0 2 2 0c1c2\n1 2 1 1c2\n2 3 1 2c3\n",
        ),
        (
            b"(c+)=",
            ALL_SOULS,
            b"entries 4 pairs 3\n0 1 1 0c1\n0 3 3 0c1c2c3\n1 3 2 1c2c3\n",
        ),
        (b"(c=)+", ALL_SOULS, b"entries 4 pairs 1\n0 1 1 0c1\n"),
        (
            b"((c+)~c)=",
            ALL_SOULS,
            b"entries 4 pairs 2\n0 3 3 0c1c2c3\n1 3 2 1c2c3\n",
        ),
        (
            b"c=|p",
            ALL_SOULS,
            b"entries 4 pairs 2\n0 1 1 0c1\n0 3 1 0p3\n",
        ),
        (b"0~", ALL_SOULS, b"entries 4 pairs 0\n"),
        (
            b"c*",
            ALL_SOULS,
            b"entries 4 pairs 10\n0 0 0 0\n0 1 1 0c1\n0 2 2 0c1c2\n0 3 3 0c1c2c3\n1 1 0 1\n1 2 1 1c2\n1 3 2 1c2c3\n2 2 0 2\n2 3 1 2c3\n3 3 0 3\n",
        ),
    ];
    Ok(compare(&rt, rt.alloc(), &rows)?)
}

// The answers that docs/FIRST.md shows. Without its last link the first book is sound.
#[test]
fn first_questions(rt: HostRuntime) -> Result<(), Fail> {
    let sound = &FIRST[..6];
    let rows: [Row; 5] = [
        (
            b"(c+)~",
            sound,
            b"entries 3 pairs 2\n0 1 1 0c1\n1 2 1 1c2\n",
        ),
        (b"(c+)=", sound, b"entries 3 pairs 1\n0 2 2 0c1c2\n"),
        (b"c(", sound, b"refused 21 at 2\n"),
        (b"(c+)~", FIRST, b"refused 15 at 58\n"),
        (
            b"(c+)=",
            TWO_DAYS,
            b"entries 4 pairs 2\n0 1 1 0c1\n2 3 1 2c3\n",
        ),
    ];
    Ok(compare(&rt, rt.alloc(), &rows)?)
}

// The pairs that docs/LANGUAGE.md lists, of stretches of its book.
#[test]
fn ends_of_stretches(rt: HostRuntime) -> Result<(), Fail> {
    let rows: [Row; 10] = [
        (b"c", LENT, b"entries 4 pairs 2\n0 1 1 0c1\n1 2 1 1c2\n"),
        (
            b"c|k",
            LENT,
            b"entries 4 pairs 3\n0 1 1 0c1\n1 2 1 1c2\n2 3 1 2k3\n",
        ),
        (
            b"c*k",
            LENT,
            b"entries 4 pairs 3\n0 3 3 0c1c2k3\n1 3 2 1c2k3\n2 3 1 2k3\n",
        ),
        (
            b"(c+k)=",
            LENT,
            b"entries 4 pairs 2\n0 3 3 0c1c2k3\n1 3 2 1c2k3\n",
        ),
        (b"c+k=", LENT, b"entries 4 pairs 0\n"),
        (
            b"(c|k)+~",
            LENT,
            b"entries 4 pairs 3\n0 2 2 0c1c2\n1 2 1 1c2\n2 3 1 2k3\n",
        ),
        (
            b"((c|k)~)+",
            LENT,
            b"entries 4 pairs 3\n1 2 1 1c2\n1 3 2 1c2k3\n2 3 1 2k3\n",
        ),
        (
            b"0=",
            LENT,
            b"entries 4 pairs 4\n0 0 0 0\n1 1 0 1\n2 2 0 2\n3 3 0 3\n",
        ),
        (b"0~", LENT, b"entries 4 pairs 0\n"),
        (b"cck", LENT, b"entries 4 pairs 1\n0 3 3 0c1c2k3\n"),
    ];
    Ok(compare(&rt, rt.alloc(), &rows)?)
}

#[test]
fn christmas(rt: HostRuntime) -> Result<(), Fail> {
    let rows: [Row; 1] = [(
        b"c=|c*~",
        CHRISTMAS,
        b"entries 3 pairs 3\n0 1 1 0c1\n0 2 2 0c1c2\n1 2 1 1c2\n",
    )];
    Ok(compare(&rt, rt.alloc(), &rows)?)
}
