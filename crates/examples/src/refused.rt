// Inputs that are refused, by number and place, beside the nearest that are not.
use crate::answers::{Row, answers, compare, input_of};
use asking::answer::{Answer, answer_to};
use refusals::Refusal;
use samples::books::{DAYS, GREGORIAN, JULIAN, NAMES};
use samples::piece::Piece;
use std::test::Fail;

const HEAD: Piece = Piece::Head(NAMES);

const NAME: Piece = Piece::Name(b"x");

const LINK: Piece = Piece::Link(0, b'a', 0);

// A link with a heading that tells a byte less.
const MISFIT: Piece = Piece::Bytes(b"\x02\x00\x03\x00\x00a\x00");

const DAYS_HEAD: Piece = Piece::Head(DAYS);

// Inputs without a line feed, and so without a book.
#[test]
fn bare_wordings(rt: HostRuntime) -> Result<(), Fail> {
    let rows: [(&[u8], &[u8]); 4] = [
        (&[b'c'; 8193], b"refused 10 at 0\n"),
        (&[b'c'; 8192], b"refused 23 at 0\n"),
        (b"", b"refused 21 at 0\n"),
        (b"c", b"refused 11 at 0\n"),
    ];
    for (place, (input, text)) in rows.iter().enumerate() {
        assert!(rt; answers(rt.alloc(), input, text)?, "row {place}");
    }
    Ok(())
}

#[test]
fn headings(rt: HostRuntime) -> Result<(), Fail> {
    let rows: [Row; 11] = [
        (b"a|", &[], b"refused 21 at 2\n"),
        (b"c", &[Piece::Bytes(b"\x02\x00\x01")], b"refused 11 at 0\n"),
        (
            b"c",
            &[Piece::Bytes(b"\x02\x00\x02\x00\x01\x00")],
            b"refused 12 at 0\n",
        ),
        (
            b"c",
            &[Piece::Bytes(b"\x02\x00\x02\x00\x02\x00")],
            b"refused 12 at 0\n",
        ),
        (
            b"c",
            &[Piece::Bytes(b"\x03\x00\x01\x00\x01\x00\x00")],
            b"refused 13 at 0\n",
        ),
        (
            b"c",
            &[Piece::Bytes(b"\x02\x00\x01\x00\x01")],
            b"refused 11 at 0\n",
        ),
        (b"c", &[Piece::Head(3)], b"refused 12 at 0\n"),
        (b"c", &[HEAD], b"entries 0 pairs 0\n"),
        (
            b"c",
            &[HEAD, Piece::Bytes(b"\x01\x00\x02")],
            b"refused 11 at 6\n",
        ),
        (b"c", &[HEAD, HEAD], b"refused 12 at 6\n"),
        (
            b"c",
            &[HEAD, Piece::Bytes(b"\x02\x00\x02\x00x")],
            b"refused 11 at 6\n",
        ),
    ];
    Ok(compare(&rt, rt.alloc(), &rows)?)
}

#[test]
fn links(rt: HostRuntime) -> Result<(), Fail> {
    let rows: [Row; 7] = [
        (b"c", &[HEAD, NAME, LINK], b"entries 1 pairs 0\n"),
        (
            b"c",
            &[HEAD, NAME, Piece::Link(0, b'A', 0)],
            b"refused 15 at 11\n",
        ),
        (
            b"c",
            &[HEAD, NAME, Piece::Link(0, b'{', 0)],
            b"refused 15 at 11\n",
        ),
        (
            b"c",
            &[HEAD, NAME, Piece::Link(1, b'a', 0)],
            b"refused 15 at 11\n",
        ),
        (
            b"c",
            &[HEAD, NAME, Piece::Link(0, b'a', 1)],
            b"refused 15 at 11\n",
        ),
        (b"c", &[HEAD, NAME, MISFIT], b"refused 13 at 11\n"),
        (
            b"c",
            &[HEAD, NAME, LINK, Piece::Name(b"y")],
            b"refused 12 at 18\n",
        ),
    ];
    Ok(compare(&rt, rt.alloc(), &rows)?)
}

#[test]
fn lengths_of_names(rt: HostRuntime) -> Result<(), Fail> {
    let rows: [Row; 3] = [
        (
            b"c",
            &[HEAD, Piece::Name(&[b'x'; 128])],
            b"entries 1 pairs 0\n",
        ),
        (
            b"c",
            &[HEAD, Piece::Name(&[b'x'; 129])],
            b"refused 13 at 6\n",
        ),
        (b"c", &[HEAD, Piece::Name(b"")], b"refused 13 at 6\n"),
    ];
    Ok(compare(&rt, rt.alloc(), &rows)?)
}

#[test]
fn days(rt: HostRuntime) -> Result<(), Fail> {
    let rows: [Row; 3] = [
        (
            b"c",
            &[DAYS_HEAD, Piece::Day(JULIAN, 1900, 2, 29)],
            b"entries 1 pairs 0\n",
        ),
        (
            b"c",
            &[DAYS_HEAD, Piece::Day(GREGORIAN, 1900, 2, 29)],
            b"refused 14 at 6\n",
        ),
        (
            b"c",
            &[DAYS_HEAD, Piece::Day(2, 1900, 2, 28)],
            b"refused 14 at 6\n",
        ),
    ];
    Ok(compare(&rt, rt.alloc(), &rows)?)
}

// `answer_to` has room for 16 entries and for 4,096 cells: 16 entries take at most 16 parts.
#[test]
fn program_room(rt: HostRuntime) -> Result<(), Fail> {
    let mut pieces = [NAME; 18];
    pieces[0] = HEAD;
    let rows: [Row; 3] = [
        (b"c", &pieces, b"refused 16 at 86\n"),
        (b"aaaaaaaaa", &pieces[..17], b"refused 33 at 0\n"),
        (b"aaaaaaaa", &pieces[..17], b"entries 16 pairs 0\n"),
    ];
    Ok(compare(&rt, rt.alloc(), &rows)?)
}

// Whether the text is an answer, and its length.
fn outcome(input: &[u8], text: &mut [u8]) -> Result<(bool, usize), Refusal> {
    let answer = answer_to(input, text)?;
    Ok((matches!(answer, Answer::Listed(_)), answer.length()))
}

// A buffer as long as the text that is due takes it, and what lies behind stays; one that is a byte shorter is refused, and stays as it was.
#[test]
fn text_room(rt: HostRuntime) -> Result<(), Fail> {
    let pieces = [HEAD, NAME, Piece::Link(0, b'c', 0)];
    let question = input_of(rt.alloc(), b"c", &pieces)?;
    let question = question.as_slice();
    let rows: [(&[u8], usize, Result<(bool, usize), Refusal>, &[u8]); 4] = [
        (question, 27, Err(Refusal::TextTooShort), &[7; 32]),
        (b"c", 15, Err(Refusal::TextTooShort), &[7; 32]),
        (b"c", 16, Ok((false, 16)), b"refused 11 at 0\n\x07"),
        (
            question,
            28,
            Ok((true, 28)),
            b"entries 1 pairs 1\n0 0 1 0c0\n\x07",
        ),
    ];
    for (place, (input, room, wanted, held)) in rows.into_iter().enumerate() {
        let mut text = [7; 32];
        let lent = text.get_mut(..room).ok_or("no room")?;
        assert!(rt; outcome(input, lent) == wanted, "row {place}");
        assert!(rt; text.starts_with(held), "row {place}");
    }
    Ok(())
}
