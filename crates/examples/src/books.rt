// Books that are read and written: what fills the buffers, and what leaves them as they were.
use crate::values::{day, link};
use files::counts::Counts;
use files::read::read_book;
use files::write::write_book;
use graphs::link::Link;
use kinds::calendar::Calendar;
use kinds::name::Name;
use refusals::Refusal;
use samples::books::{ALL_SOULS, ALL_SOULS_FILE};
use samples::piece::file_of;
use std::test::Fail;

const BLANK: Name = Name {
    len: 128,
    bytes: [b'x'; 128],
};

const SHORT: Name = Name {
    len: 1,
    bytes: [b'x'; 128],
};

const NO_LINK: Link = Link {
    from: 0,
    letter: 0,
    to: 0,
};

const LOOP: Link = Link {
    from: 0,
    letter: b'a',
    to: 0,
};

#[test]
fn all_souls(rt: HostRuntime) -> Result<(), Fail> {
    let file = file_of(rt.alloc(), ALL_SOULS)?;
    assert!(rt; file.as_slice() == ALL_SOULS_FILE);
    let mut names = [BLANK; 5];
    let mut links = [NO_LINK; 5];
    assert_eq!(rt;
        read_book::<Name>(&file, &mut names, &mut links)?,
        Counts {
            entries: 4,
            links: 4,
        }
    );
    assert!(rt; names[2].text() == b"All Soul".as_slice());
    assert_eq!(rt; names[2].bytes[8], 0);
    assert_eq!(rt; names[4].bytes[8], b'x');
    assert!(rt; names[0] == names[3]);
    assert!(rt; names[0] != names[2]);
    assert_eq!(rt; links[3], link(0, b'p', 3));
    assert_eq!(rt; links[4], NO_LINK);
    let mut out = [7; 100];
    assert_eq!(rt;
        write_book::<Name>(&names[0..4], &links[0..4], &mut out)?,
        85
    );
    assert!(rt; &out[0..85] == ALL_SOULS_FILE);
    assert!(rt; &out[85..100] == [7; 15].as_slice());
    Ok(())
}

// The file that docs/FILES.md spells out.
#[test]
fn one_day(rt: HostRuntime) -> Result<(), Fail> {
    let mut out = [0; 15];
    let size = write_book(&[day(Calendar::Julian, 2023, 12, 25)], &[], &mut out)?;
    assert_eq!(rt; size, 15);
    assert_eq!(rt;
        out,
        *b"\x02\x00\x01\x00\x02\x00\x05\x00\x02\x00\x01\xe7\x07\x0c\x19"
    );
    Ok(())
}

// A refused reading leaves the buffers as they were.
#[test]
fn room(rt: HostRuntime) {
    let mut names = [SHORT; 4];
    let mut links = [LOOP; 4];
    assert_eq!(rt;
        read_book::<Name>(ALL_SOULS_FILE, &mut names[0..3], &mut links),
        Err(Refusal::TooManyEntries { at: 44 })
    );
    assert_eq!(rt;
        read_book::<Name>(ALL_SOULS_FILE, &mut names, &mut links[0..3]),
        Err(Refusal::TooManyLinks { at: 78 })
    );
    assert_eq!(rt; names[0].bytes[0], b'x');
    assert_eq!(rt; links[1], LOOP);
}

// The names and links of a book, so many bytes for it, and what comes of writing it; a refusal leaves the buffer as it was.
#[test]
fn writing(rt: HostRuntime) -> Result<(), Fail> {
    let names = [SHORT; 129];
    let loops = [LOOP; 1025];
    let astray = [link(0, b'a', 1)];
    let mut out = [7; 8192];
    let rows: [(&[Name], &[Link], usize, Result<usize, Refusal>); 6] = [
        (&names, &[], 8192, Err(Refusal::BookUnwritable)),
        (&names[0..128], &loops, 8192, Err(Refusal::BookUnwritable)),
        (&names[0..1], &astray, 18, Err(Refusal::BookUnwritable)),
        (&names[0..1], &loops[0..1], 17, Err(Refusal::BytesTooShort)),
        (&names[0..1], &loops[0..1], 18, Ok(18)),
        (&names[0..128], &loops[0..1024], 8192, Ok(7814)),
    ];
    for (names, links, room, wanted) in rows {
        let out = out.get_mut(..room).ok_or("no room")?;
        assert_eq!(rt; write_book::<Name>(names, links, out), wanted);
        let first = if wanted.is_ok() { 2 } else { 7 };
        assert_eq!(rt; out.first(), Some(&first));
    }
    Ok(())
}
