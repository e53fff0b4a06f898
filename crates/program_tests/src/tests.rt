use outside::{CalmSink, CalmSource, MemSink, MemSource, OpenGate, StdSink};
use run_report::put_record;
use script_run::replay;
use script_text::{Cause, Script, What};
use smack_base::Bytes;
use smack_program::{Status, replay_calm, replay_main, told_main};
use std::alloc::{AllocError, Global};
use std::io;
use std::io::{ErrorKind, Write};
use std::process::Abort;
use std::sync::Wait;
use std::test::Fail;
use std::thread::Threads;

/// Scripts and their records. More stand in `examples/worked`, where the built program is compared
/// with them.
const RECORDS: [(&str, &str); 2] = [
    (
        "init write load2 1\nA B rw\ninit ask A B r\n",
        "smack 1\ntask 0 init\nj 1 0.1 1\no set A B rw\nq 0.2 v1 ask A B r\n= allow 6\nend 1 0 1\n",
    ),
    (
        "init create /\ninit create /f\ninit create /f\ninit write load2 1\nA _ rw\ninit relabel A\ninit unlink /g\ninit list /f 7\ninit unlink /f\ninit create /b\ninit create /a\ninit ask A _ rw\ninit list / 1\n",
        "smack 1\ntask 0 init\nj 1 0.4 1\no set A _ rw\nh 1 0.1 v0 create /\n= is-root\nh 2 0.2 v0 create /f\nc _ _ x allow 3\nc _ _ rw allow 5\n= ok\nh 3 0.3 v0 create /f\nc _ _ x allow 3\nc _ _ rw allow 5\n= exists\nh 4 0.5 v1 relabel A\n= ok\nh 5 0.6 v1 unlink /g\nc A _ x allow 3\n= no-such-name\nh 6 0.7 v1 list /f 7\nc A _ x allow 3\nc A _ r allow 3\n= not-directory\nh 7 0.8 v1 unlink /f\nc A _ x allow 3\nc A _ rw allow 6\nc A _ rw allow 6\n= ok\nh 8 0.9 v1 create /b\nc A _ x allow 3\nc A _ rw allow 6\n= ok\nh 9 0.10 v1 create /a\nc A _ x allow 3\nc A _ rw allow 6\n= ok\nh 10 0.12 v1 list / 1\nc A _ r allow 3\n= names 2 1 b\nq 0.11 v1 ask A _ rw\n= allow 6\nend 1 10 1\n",
    ),
];

/// Whether `replay` of a script ends as it should and writes this text, from a source and to a sink
/// that do not fail.
fn replays(
    rt: &(impl Abort + AllocGlobal),
    script: &[u8],
    status: Status,
    text: &[u8],
) -> Result<bool, Fail> {
    let mut source = CalmSource::new(Vec::from_slice(rt.alloc(), script)?);
    let mut sink = CalmSink::new(rt.alloc(), 7);
    let ended = replay_main(rt.alloc(), &mut source, &mut sink);
    Ok(ended == status && sink.taken() == text)
}

#[test]
fn scripts_and_their_records(rt: HostRuntime) -> Result<(), Fail> {
    for (script, text) in RECORDS {
        assert!(rt; replays(&rt, script.as_bytes(), Status::Done, text.as_bytes())?);
    }
    Ok(())
}

/// Whether the record of a script that is read and replayed has this text.
fn has_text(alloc: Global, script: &[u8], text: &[u8]) -> Result<bool, AllocError> {
    let Ok(script) = Script::read(alloc, script) else {
        return Ok(false);
    };
    let record = replay(alloc, &script)?;
    let mut sink = CalmSink::new(alloc, 7);
    let put = put_record(alloc, &record, &mut sink);
    Ok(put.is_ok() && sink.taken() == text)
}

/// What the program writes for a script is the text of the record that a user of the library has.
#[test]
fn records_without_the_program(rt: HostRuntime) -> Result<(), Fail> {
    for (script, text) in RECORDS {
        assert!(rt; has_text(rt.alloc(), script.as_bytes(), text.as_bytes())?);
    }
    Ok(())
}

#[test]
fn a_calm_replay(rt: HostRuntime) -> Result<(), Fail> {
    let mut source = CalmSource::new(Vec::from_slice(rt.alloc(), b"init frob")?);
    let mut sink = CalmSink::new(rt.alloc(), 7);
    let verb = Status::Malformed {
        line: 1,
        cause: Cause::Verb,
    };
    assert!(rt; replay_calm(rt.alloc(), &mut source, &mut sink) == verb);
    Ok(())
}

/// Whether a script of one byte, so many times, ends like this and writes this text.
fn repeats(
    rt: &(impl Abort + AllocGlobal),
    byte: u8,
    count: usize,
    status: Status,
    text: &[u8],
) -> Result<bool, Fail> {
    let script = vec![in rt.alloc(); byte; count]?;
    replays(rt, script.as_slice(), status, text)
}

#[test]
fn most_bytes_and_lines(rt: HostRuntime) -> Result<(), Fail> {
    let nothing = b"smack 1\ntask 0 init\nend 0 0 0\n";
    let bytes = Status::TooLarge { what: What::Bytes };
    let lines = Status::TooLarge { what: What::Lines };
    assert!(rt; repeats(&rt, b'#', 4_194_304, Status::Done, nothing)?);
    assert!(rt; repeats(&rt, b'#', 4_194_305, bytes, b"")?);
    assert!(rt; repeats(&rt, b'\n', 131_072, Status::Done, nothing)?);
    assert!(rt; repeats(&rt, b'\n', 131_073, lines, b"")?);
    Ok(())
}

/// How the program ends: the exit status, what the sink took, and what standard error took.
#[derive(Drop)]
struct Told {
    code: u8,
    text: Bytes,
    errors: Bytes,
}

/// How a script ends under these words, where a read and a write of these numbers fail, and the sink
/// takes 8 bytes at a time.
fn ended<R: Abort + AllocGlobal + Threads + Wait + Sync>(
    rt: &R,
    words: &[&str],
    script: &[u8],
    fails: (u32, u32),
) -> Result<Told, Fail> {
    let mut owned = Vec::new(rt.alloc());
    for word in words {
        owned.push(String::from_str(rt.alloc(), word)?)?;
    }
    let script = Vec::from_slice(rt.alloc(), script)?;
    let mut source = MemSource::new(script, vec![in rt.alloc(); fails.0]?);
    let mut sink = MemSink::new(rt.alloc(), 8, vec![in rt.alloc(); fails.1]?);
    let mut errors = CalmSink::new(rt.alloc(), 5);
    let mut kept = None;
    let ending = told_main(
        rt,
        rt.alloc(),
        owned.as_slice(),
        &mut source,
        &mut sink,
        &mut errors,
        &OpenGate,
        &mut kept,
    );
    Ok(Told {
        code: ending.code,
        text: Bytes::from_slice(rt.alloc(), sink.taken())?,
        errors: Bytes::from_slice(rt.alloc(), errors.taken())?,
    })
}

/// Words, a script, the read and the write that fail; the exit status, and what standard error takes.
const ENDINGS: [(&[&str], &str, (u32, u32), u8, &str); 15] = [
    (&["replay"], "", (0, 0), 0, ""),
    (&[], "", (0, 0), 2, "smack: usage\n"),
    (&["runs"], "", (0, 0), 2, "smack: usage\n"),
    (&["run", "x"], "", (0, 0), 2, "smack: usage\n"),
    (&["replay", "x"], "", (0, 0), 2, "smack: usage\n"),
    (&["replay"], "init frob", (0, 0), 3, "smack: line 1: verb\n"),
    (
        &["replay"],
        "\n#\ninit ask A B z",
        (0, 0),
        3,
        "smack: line 3: word 5\n",
    ),
    (
        &["replay"],
        "init write load2 2\nA B r",
        (0, 0),
        3,
        "smack: line 1: text\n",
    ),
    (&["replay"], "", (1, 0), 4, "smack: read fault\n"),
    (&["replay"], "#", (2, 0), 4, "smack: read fault\n"),
    (&["replay"], "", (0, 1), 5, "smack: write fault\n"),
    (&["replay"], "", (0, 3), 5, "smack: write fault\n"),
    (&["run"], "init frob", (0, 0), 3, "smack: line 1: verb\n"),
    (&["run"], "", (1, 0), 4, "smack: read fault\n"),
    (&["run"], "", (0, 1), 5, "smack: write fault\n"),
];

#[test]
fn exit_statuses_and_their_lines(rt: HostRuntime) -> Result<(), Fail> {
    for (words, script, fails, code, line) in ENDINGS {
        let told = ended(&rt, words, script.as_bytes(), fails)?;
        assert!(rt; told.code == code && told.errors.items() == line.as_bytes());
    }
    Ok(())
}

const SCRIPT: &[u8] = b"init write load2 1\nA B rw\ninit ask A B r\n";

const RECORD: &[u8] =
    b"smack 1\ntask 0 init\nj 1 0.1 1\no set A B rw\nq 0.2 v1 ask A B r\n= allow 6\nend 1 0 1\n";

/// How many writes of at most 8 bytes the record takes: each line with its line feed takes an
/// eighth of its bytes, rounded up.
const WRITES: u32 = 14;

/// Every write of a record fails once, and every read of its script: the status is that of the
/// fault, and what was written is a front of the record, or nothing.
#[test]
fn each_fault_of_reading_and_writing(rt: HostRuntime) -> Result<(), Fail> {
    let mut longest = 0;
    for write in 1..=WRITES {
        let told = ended(&rt, &["replay"], SCRIPT, (0, write))?;
        let taken = told.text.items();
        assert!(rt; told.code == 5 && RECORD.starts_with(taken));
        assert!(rt; taken.len() < RECORD.len() && (write == 1 || longest < taken.len()));
        longest = taken.len();
    }
    let told = ended(&rt, &["replay"], SCRIPT, (0, 2))?;
    assert!(rt; told.code == 5 && told.text.items() == b"smack 1\n".as_slice());
    let told = ended(&rt, &["replay"], SCRIPT, (0, WRITES + 1))?;
    assert!(rt; told.code == 0 && told.text.items() == RECORD);
    for read in [1, 2] {
        let told = ended(&rt, &["replay"], SCRIPT, (read, 0))?;
        assert!(rt; told.code == 4 && told.text.items().is_empty());
    }
    Ok(())
}

/// Takes all, and then has no room for it.
#[derive(Drop)]
struct FullDevice;

impl Write for FullDevice {
    fn write(&mut self, piece: &[u8]) -> io::Result<usize> {
        Ok(piece.len())
    }

    fn flush(&mut self) -> io::Result<()> {
        Err(ErrorKind::StorageFull.into())
    }
}

#[test]
fn a_flush_that_fails_is_a_write_fault(rt: HostRuntime) -> Result<(), Fail> {
    let mut source = CalmSource::new(Vec::from_slice(rt.alloc(), SCRIPT)?);
    let mut sink = StdSink::new(rt.alloc(), FullDevice)?;
    assert!(rt; replay_main(rt.alloc(), &mut source, &mut sink) == Status::WriteFault);
    Ok(())
}
