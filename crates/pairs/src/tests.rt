// Runs that end as they should, which no contract says: each reads, writes and ends as its row has it.
use crate::failure::Failure;
use crate::program::run;
use std::alloc::Global;
use std::io;
use std::io::{ErrorKind, Read, Write};
use std::test::*;

// One entry, which a link joins to itself.
const LOOPED: &[u8] = b"a\n\x02\x00\x01\x00\x01\x00\x01\x00\x02\x00x\x03\x00\x03\x00\x00a\x00";

const LOOP: &[u8] = b"entries 1 pairs 1\n0 0 1 0a0\n";

const NOT_WORDED: &[u8] = b"refused 21 at 0\n";

const TOO_LONG: &[u8] = b"refused 10 at 0\n";

#[derive(Clone, Copy, Debug, PartialEq, Eq)]
enum Ending {
    Well,
    Refused,
    Stopped(ErrorKind),
}

use Ending::{Refused, Stopped, Well};

const BROKEN_OFF: Ending = Stopped(ErrorKind::ConnectionReset);

const GONE: Ending = Stopped(ErrorKind::BrokenPipe);

const FULL: Ending = Stopped(ErrorKind::WriteZero);

fn end_of(ended: Result<(), Failure>) -> Ending {
    match ended {
        Ok(()) => Well,
        Err(Failure::Refused) => Refused,
        Err(Failure::Stopped(error)) => Stopped(error.kind()),
    }
}

// What is in memory is read and written as it is.
#[test]
fn in_memory(rt: HostRuntime) {
    let rows: [(&[u8], &[u8], Ending); 5] = [
        (LOOPED, LOOP, Well),
        (&LOOPED[..13], b"entries 1 pairs 0\n", Well),
        (b"", NOT_WORDED, Refused),
        (&[b'a'; 8192], b"refused 23 at 0\n", Refused),
        (&[b'a'; 8193], TOO_LONG, Refused),
    ];
    for (input, text, end) in rows {
        let mut got = Vec::new(rt.alloc());
        assert_eq!(rt; end_of(run(input, &mut got, rt.alloc())), end);
        assert!(rt; got.as_slice() == text, "of {} bytes", input.len());
    }
}

// Gives its bytes by threes and then ends, or fails where it breaks off.
#[derive(Drop)]
struct Drips<'a> {
    bytes: &'a [u8],
    breaks_off: bool,
}

impl Read for Drips<'_> {
    fn read(&mut self, buffer: &mut [u8]) -> io::Result<usize> {
        if self.bytes.is_empty() && self.breaks_off {
            return Err(io::Error::from(ErrorKind::ConnectionReset));
        }
        let most = buffer.len().min(3);
        self.bytes.read(&mut buffer[..most])
    }
}

// Takes a byte at a time until so many are taken, is interrupted before each, and then fails in its way.
#[derive(Drop)]
struct Narrow {
    taken: Vec<u8>,
    room: usize,
    ready: bool,
    full: Option<ErrorKind>,
}

impl Write for Narrow {
    fn write(&mut self, bytes: &[u8]) -> io::Result<usize> {
        self.ready = !self.ready;
        if self.ready {
            return Err(io::Error::from(ErrorKind::Interrupted));
        }
        let Some(byte) = bytes.first() else {
            return Ok(0);
        };
        if self.taken.len() < self.room {
            self.taken.push(*byte)?;
            return Ok(1);
        }
        match self.full {
            Some(kind) => Err(io::Error::from(kind)),
            None => Ok(0),
        }
    }

    fn flush(&mut self) -> io::Result<()> {
        Ok(())
    }
}

fn with_room(heap: Global, room: usize, full: Option<ErrorKind>) -> Narrow {
    Narrow {
        taken: Vec::new(heap),
        room,
        ready: false,
        full,
    }
}

// What gives and takes little by little makes no difference, and what fails stops the run: before anything is written, or behind what was taken.
#[test]
fn in_parts(rt: HostRuntime) {
    let gone = Some(ErrorKind::BrokenPipe);
    // What is given, whether it breaks off, how much is taken, how the writer fails then, what it has got, and how the run ends.
    let rows: [(&[u8], bool, usize, Option<ErrorKind>, &[u8], Ending); 10] = [
        (LOOPED, false, 28, gone, LOOP, Well),
        (b"", false, 16, gone, NOT_WORDED, Refused),
        (&[b'a'; 8193], true, 16, gone, TOO_LONG, Refused),
        (LOOPED, true, 28, gone, b"", BROKEN_OFF),
        (b"", true, 16, gone, b"", BROKEN_OFF),
        (LOOPED, false, 0, gone, b"", GONE),
        (LOOPED, false, 27, gone, &LOOP[..27], GONE),
        (LOOPED, false, 27, None, &LOOP[..27], FULL),
        (b"", false, 15, gone, &NOT_WORDED[..15], GONE),
        (b"", false, 15, None, &NOT_WORDED[..15], FULL),
    ];
    for (bytes, breaks_off, room, full, text, end) in rows {
        let mut writer = with_room(rt.alloc(), room, full);
        let reader = Drips { bytes, breaks_off };
        assert_eq!(rt; end_of(run(reader, &mut writer, rt.alloc())), end);
        assert!(rt; writer.taken.as_slice() == text, "room for {room}");
    }
}

// Takes all that it is given, and cannot pass it on.
#[derive(Drop)]
struct Dammed {
    taken: Vec<u8>,
}

impl Write for Dammed {
    fn write(&mut self, bytes: &[u8]) -> io::Result<usize> {
        self.taken.write(bytes)
    }

    fn flush(&mut self) -> io::Result<()> {
        Err(io::Error::from(ErrorKind::BrokenPipe))
    }
}

// What was written whole and went no further is no success.
#[test]
fn not_flushed(rt: HostRuntime) {
    let mut writer = Dammed {
        taken: Vec::new(rt.alloc()),
    };
    assert_eq!(rt; end_of(run(LOOPED, &mut writer, rt.alloc())), GONE);
    assert!(rt; writer.taken.as_slice() == LOOP);
}
