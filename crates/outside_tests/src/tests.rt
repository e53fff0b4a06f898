ghost use Rattle.std.specs.Prelude.{◌≤◌, IfOk};

use outside::{
    CalmSink, CalmSource, DirectSink, Failed, MemSink, MemSource, Sink, SinkFault, Source, StdSink,
    StdSource, Unread, offer, read_all,
};
use std::io;
use std::io::{ErrorKind, Read, Write};
use std::process::Abort;
use std::test::Fail;

#[test]
fn reads_to_the_end_or_says_why(rt: HostRuntime) -> Result<(), Fail> {
    // how many bytes there are, how many may come, which read fails, and how many come
    let cases = [
        (0, 0, 0, Ok(0)),
        (1, 0, 0, Err(Unread::TooMany)),
        (3, 3, 0, Ok(3)),
        (4, 3, 0, Err(Unread::TooMany)),
        (5000, 5000, 4, Ok(5000)),
        (5000, 4999, 4, Err(Unread::TooMany)),
        (5000, 5000, 1, Err(Unread::Failed)),
        (5000, 5000, 2, Err(Unread::Failed)),
        (5000, 5000, 3, Err(Unread::Failed)),
    ];
    for (length, most, failing, want) in cases {
        let fails = vec![in rt.alloc(); 77, failing]?;
        let mut source = MemSource::new(vec![in rt.alloc(); 7u8; length]?, fails);
        let read = read_all(rt.alloc(), &mut source, most);
        assert_eq!(rt; read.map(|bytes| bytes.len()), want, "{length} of {most}");
    }
    Ok(())
}

#[test]
fn offers_all_or_a_front(rt: HostRuntime) -> Result<(), Fail> {
    // the most of a write, which write fails, and what is taken of `abc` before and after the fault
    let cases = [
        (1, 0, "abc", ""),
        (9, 2, "abc", ""),
        (1, 1, "", "abc"),
        (1, 3, "ab", "c"),
        (2, 2, "ab", "c"),
    ];
    for (most, failing, front, back) in cases {
        assert!(rt; most >= 1);
        let mut sink = MemSink::new(rt.alloc(), most, vec![in rt.alloc(); failing, 77]?);
        let want = if back.is_empty() {
            Ok(())
        } else {
            Err(SinkFault::Failed)
        };
        assert_eq!(rt; offer(&mut sink, b"abc"), want);
        assert_eq!(rt; sink.taken(), front.as_bytes());
        assert_eq!(rt; offer(&mut sink, back.as_bytes()), Ok(()));
        assert_eq!(rt; sink.taken(), b"abc".as_slice());
    }
    Ok(())
}

#[test]
fn calm_ones_give_and_take_what_fits(rt: HostRuntime) -> Result<(), Fail> {
    let mut source = CalmSource::new(Vec::from_slice(rt.alloc(), b"abc")?);
    let mut sink = CalmSink::new(rt.alloc(), 1);
    let mut piece = [0; 2];
    assert_eq!(rt; source.read(&mut piece), Ok(2));
    assert_eq!(rt; piece, [97, 98]);
    assert_eq!(rt; sink.write(&piece), Ok(1));
    assert_eq!(rt; source.read(&mut piece), Ok(1));
    assert_eq!(rt; offer(&mut sink, &piece), Ok(()));
    assert_eq!(rt; source.read(&mut piece), Ok(0));
    assert_eq!(rt; sink.taken(), b"acb".as_slice());
    Ok(())
}

/// Gives and takes so many bytes a call, one fewer each time, and then fails.
#[derive(Drop)]
struct Fading {
    most: usize,
}

impl Fading {
    fn step(&mut self, room: usize) -> io::Result<usize>
        ensures { IfOk result (λ n. n ≤ room) }
    {
        if self.most == 0 {
            return Err(ErrorKind::Other.into());
        }
        self.most -= 1;
        Ok(self.most.min(room))
    }
}

impl Read for Fading {
    fn read(&mut self, into: &mut [u8]) -> io::Result<usize> {
        self.step(into.len())
    }
}

impl Write for Fading {
    fn write(&mut self, piece: &[u8]) -> io::Result<usize> {
        self.step(piece.len())
    }

    fn flush(&mut self) -> io::Result<()> {
        Ok(())
    }
}

#[test]
fn std_ones_hand_on_what_they_are_answered(rt: HostRuntime) {
    let mut source = StdSource::new(Fading { most: 2 });
    let mut into = [0; 4];
    assert_eq!(rt; source.read(&mut into), Ok(1));
    assert_eq!(rt; source.read(&mut into), Ok(0));
    assert_eq!(rt; source.read(&mut into), Err(Failed));
    let mut sink = DirectSink::new(Fading { most: 2 });
    assert_eq!(rt; sink.write(b"abcd"), Ok(1));
    assert_eq!(rt; sink.write(b"bcd"), Err(SinkFault::Failed));
    assert_eq!(rt; sink.write(b"bcd"), Err(SinkFault::Failed));
    assert_eq!(rt; DirectSink::new(Fading { most: 1 }).write(b""), Ok(0));
}

/// Gives a byte a call, but for one call, which fails.
#[derive(Drop)]
struct Stumbling {
    left: u32,
    fails_at: u32,
}

impl Read for Stumbling {
    fn read(&mut self, into: &mut [u8]) -> io::Result<usize> {
        if self.left == 0 || into.is_empty() {
            return Ok(0);
        }
        self.left -= 1;
        if self.left == self.fails_at {
            return Err(ErrorKind::Other.into());
        }
        into[0] = 7;
        Ok(1)
    }
}

#[test]
fn a_reader_that_fails_once_has_failed(rt: HostRuntime) {
    for fails_at in [0, 1, 4] {
        let mut source = StdSource::new(Stumbling { left: 5, fails_at });
        let read = read_all(rt.alloc(), &mut source, 9);
        assert_eq!(rt; read.map(|bytes| bytes.len()), Err(Unread::Failed));
    }
    let mut source = StdSource::new(Stumbling {
        left: 5,
        fails_at: 5,
    });
    let read = read_all(rt.alloc(), &mut source, 9);
    assert_eq!(rt; read.map(|bytes| bytes.len()), Ok(5));
}

/// Counts the writes and their bytes, and fails at a flush where it is told to.
#[derive(Drop)]
struct Tally {
    writes: u32,
    bytes: usize,
    flush_fails: bool,
}

impl Write for Tally {
    fn write(&mut self, piece: &[u8]) -> io::Result<usize> {
        self.writes = self.writes.saturating_add(1);
        self.bytes = self.bytes.saturating_add(piece.len());
        Ok(piece.len())
    }

    fn flush(&mut self) -> io::Result<()> {
        if self.flush_fails {
            Err(ErrorKind::Other.into())
        } else {
            Ok(())
        }
    }
}

#[test]
fn small_pieces_are_handed_on_together(rt: HostRuntime) -> Result<(), Fail> {
    let mut tally = Tally {
        writes: 0,
        bytes: 0,
        flush_fails: false,
    };
    let mut sink = StdSink::new(rt.alloc(), &mut tally)?;
    for _ in 0..3000 {
        assert_eq!(rt; offer(&mut sink, &[7; 50]), Ok(()));
    }
    assert_eq!(rt; sink.flush(), Ok(()));
    drop(sink);
    assert_eq!(rt; (tally.bytes, tally.writes), (150_000, 3));
    Ok(())
}

#[test]
fn a_flush_that_fails_is_a_fault(rt: HostRuntime) -> Result<(), Fail> {
    let tally = Tally {
        writes: 0,
        bytes: 0,
        flush_fails: true,
    };
    let mut sink = StdSink::new(rt.alloc(), tally)?;
    assert_eq!(rt; offer(&mut sink, b"abc"), Ok(()));
    assert_eq!(rt; sink.flush(), Err(SinkFault::Failed));
    Ok(())
}
