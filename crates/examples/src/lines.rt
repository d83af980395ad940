// The lines of an answer and of a refusal, and what a buffer without room for them holds after.
use crate::values::step;
use listing::lines::{first_line, long_line, pair_line, refusal_line};
use refusals::Refusal;

// That printing can succeed, which no contract says.
#[test]
fn printed(rt: HostRuntime) {
    let text = Refusal::LengthUnfit { at: 6 }.to_string(rt.alloc());
    assert!(rt; text.is_ok_and(|text| text.as_str() == "refused 13 at 6"));
}

#[test]
fn without_room(rt: HostRuntime) {
    let mut out = [7; 17];
    let short = Err(Refusal::TextTooShort);
    let unfit = Refusal::LengthUnfit { at: 6 };
    assert_eq!(rt; first_line(4, 3, &mut out), short);
    assert_eq!(rt; long_line(0, 2, &mut out[0..8]), short);
    assert_eq!(rt; refusal_line(unfit, &mut out[0..15]), short);
    assert_eq!(rt; out, [7; 17]);
}

#[test]
fn lines(rt: HostRuntime) {
    let mut out = [7; 32];
    let refused: [(Refusal, &[u8]); 3] = [
        (Refusal::TextTooShort, b"refused 47 at 0\n"),
        (Refusal::BookUnwritable, b"refused 71 at 0\n"),
        (Refusal::BytesTooShort, b"refused 72 at 0\n"),
    ];
    for (refusal, line) in refused {
        assert_eq!(rt; refusal_line(refusal, &mut out), Ok(line.len()));
        assert!(rt; out.starts_with(line));
    }
    assert_eq!(rt; first_line(4, 3, &mut out), Ok(18));
    assert!(rt; out.starts_with(b"entries 4 pairs 3\n"));
    assert_eq!(rt; long_line(0, 2, &mut out), Ok(9));
    assert!(rt; out.starts_with(b"0 2 long\n"));
}

#[test]
fn pair_lines(rt: HostRuntime) {
    let mut out = [7; 16];
    let path = [step(b'c', 1), step(255, 10)];
    assert_eq!(rt;
        pair_line(0, 10, 2, &path, &mut out[0..13]),
        Err(Refusal::TextTooShort)
    );
    assert!(rt; out == [7; 16]);
    assert_eq!(rt; pair_line(0, 10, 2, &path, &mut out[0..14]), Ok(14));
    assert!(rt; &out[0..16] == b"0 10 2 0c1\xff10\n\x07\x07".as_slice());
    assert_eq!(rt; pair_line(10, 2, 999, &[], &mut out), Ok(12));
    assert!(rt; out.starts_with(b"10 2 999 10\n"));
}
