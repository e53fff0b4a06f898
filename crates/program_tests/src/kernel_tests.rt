use crate::run_tests::run_of;
use outside::{CalmSink, CalmSource, Gate};
use rule_fold::RuleIndex;
use rules_spec::Batch;
use smack_base::Duplicate;
use smack_kernel::Closed;
use smack_program::Status;
use smack_world::{Entry, Listing, Reply, Stepped, World};
use std::alloc::{AllocError, Global};
use std::process::Abort;
use std::sync::Wait;
use std::sync::atomic::{AtomicBool, AtomicU32, Ordering};
use std::test::Fail;
use std::thread;
use std::thread::Threads;

/// How often four tasks run. The gate runs them once; `bench/stress` says how often it does.
const ROUNDS: u32 = 1;

/// What a task does, again and again: a call on files that all tasks name, and a write to rules that
/// these calls are judged by.
const ACTS: [(&str, &str); 10] = [
    ("create /f", "load2 1\nA _ rw"),
    ("list / 0", "load2 2\nA _ -\nA B r"),
    ("create /g", "change-rule 1\nA _ rw -"),
    ("unlink /f", "load2 0"),
    ("create /f", "revoke-subject 1\nA"),
    ("list / 1", "load2 1\nA _ w"),
    ("unlink /g", "change-rule 1\nA _ r w"),
    ("create /h", "load2 1\nA _ rwx"),
    ("unlink /h", "logging 1\n3"),
    ("list /f 0", "load2 1\nA _ rw"),
];

const NAMES: [&str; 4] = ["init", "B", "C", "D"];

/// Puts one line, or one text, of a task into a script.
fn put(script: &mut Vec<u8>, task: &str, verb: &str, rest: &str) -> Result<(), AllocError> {
    for part in [task, " ", verb, rest, "\n"] {
        script.extend_from_slice(part.as_bytes())?;
    }
    Ok(())
}

/// Tasks that run side by side, each of which does all acts so many times. The first makes the calls
/// of the opening lines before.
#[derive(Clone, Copy)]
struct Crowd {
    opening: &'static str,
    opened: u8,
    tasks: u16,
    times: u32,
}

/// Four tasks with the label `A`, whose calls on files are judged by rules.
fn four() -> Crowd {
    Crowd {
        opening: "init relabel A\ninit drop mac-override\ninit fork B\ninit fork C\ninit fork D\n",
        opened: 5,
        tasks: 4,
        times: 5,
    }
}

/// Two tasks, whose calls no rule denies.
fn two() -> Crowd {
    Crowd {
        opening: "init fork B\n",
        opened: 1,
        tasks: 2,
        times: 10,
    }
}

/// Puts the calls and the writes of a task into a script.
fn put_task(script: &mut Vec<u8>, task: &str, times: u32) -> Result<(), AllocError> {
    for _ in 0..times {
        for (call, write) in ACTS {
            put(script, task, "", call)?;
            put(script, task, "write ", write)?;
        }
    }
    Ok(())
}

/// The script of a crowd.
fn script<R: AllocGlobal>(rt: &R, crowd: Crowd) -> Result<Vec<u8>, AllocError> {
    let mut script = Vec::from_slice(rt.alloc(), crowd.opening.as_bytes())?;
    for name in NAMES.iter().take(crowd.tasks as usize) {
        put_task(&mut script, name, crowd.times)?;
    }
    Ok(script)
}

/// How many turns a task waits for the others.
const TURNS: u32 = 50_000_000;

/// Lets the tasks of a crowd go on where all have come.
#[derive(Drop)]
struct AllMeet {
    crowd: Crowd,
    came: AtomicU32,
    missed: AtomicBool,
}

impl Gate for AllMeet {
    fn before(&self, task: u32, seq: u32) {
        let first = match task {
            0 => u32::from(self.crowd.opened) + 1,
            _ => 1,
        };
        if seq != first {
            return;
        }
        self.came.fetch_add(1, Ordering::SeqCst);
        for _ in 0..TURNS {
            if self.came.load(Ordering::SeqCst) == u32::from(self.crowd.tasks) {
                return;
            }
            thread::yield_now();
        }
        self.missed.store(true, Ordering::SeqCst);
    }
}

/// What a closed kernel hands out after the tasks of a crowd have run side by side.
fn runs<R: Threads + Wait + Sync + AllocGlobal>(
    rt: &R,
    crowd: Crowd,
    bytes: &[u8],
) -> Result<Option<Closed>, Fail> {
    let mut source = CalmSource::new(Vec::from_slice(rt.alloc(), bytes)?);
    let mut sink = CalmSink::new(rt.alloc(), 65_536);
    let gate = AllMeet {
        crowd,
        came: AtomicU32::new(0),
        missed: AtomicBool::new(false),
    };
    let (status, kept) = run_of(rt, &mut source, &mut sink, &gate)?;
    if status != Status::Done || gate.missed.load(Ordering::SeqCst) {
        return Ok(None);
    }
    Ok(kept)
}

fn are_same_names(one: &Listing, two: &Listing) -> bool {
    let mut these = one.names();
    let mut those = two.names();
    for _ in 0..one.len() {
        if these.next() != those.next() {
            return false;
        }
    }
    those.next().is_none()
}

fn is_same(one: &Reply, two: &Reply) -> bool {
    match (one, two) {
        (Reply::Ok, Reply::Ok) => true,
        (Reply::Child(a), Reply::Child(b)) => a == b,
        (
            Reply::Names {
                count: a,
                names: these,
            },
            Reply::Names {
                count: b,
                names: those,
            },
        ) => a == b && are_same_names(these, those),
        (Reply::Denied(a), Reply::Denied(b)) => a == b,
        (Reply::Refused(a), Reply::Refused(b)) => a == b,
        _ => false,
    }
}

/// Takes batches until the rules are those of a version. No, where they are past it, or the journal
/// or the memory ends before it.
fn reaches(rules: &mut RuleIndex, journal: &[Batch], version: u32) -> bool {
    for batch in journal {
        if rules.version() >= version {
            break;
        }
        if rules.absorb(batch).is_err() {
            return false;
        }
    }
    rules.version() == version
}

/// Whether the machine on one thread comes to the same checks and reply for an entry.
fn steps_to(alloc: Global, world: &mut World, rules: &RuleIndex, entry: &Entry) -> bool {
    let Ok(call) = entry.call.copy() else {
        return false;
    };
    match world.step(alloc, rules, entry.task, entry.seq, call) {
        Ok(
            Stepped::Entered {
                place: _,
                checks,
                reply,
                creds: _,
            },
        ) => checks.items() == entry.checks.items() && is_same(&reply, &entry.reply),
        _ => false,
    }
}

/// Whether the machine on one thread comes to the same for all entries of a history, each in its
/// version of the journal. Versions do not fall.
fn replays(alloc: Global, journal: &[Batch], history: &[Entry]) -> Result<bool, AllocError> {
    let mut rules = RuleIndex::new(alloc)?;
    let mut world = World::new(alloc)?;
    let mut all = true;
    for entry in history {
        let rest = journal.get(rules.version() as usize..).unwrap_or(&[]);
        all = all
            && reaches(&mut rules, rest, entry.version)
            && steps_to(alloc, &mut world, &rules, entry);
    }
    Ok(all)
}

/// Whether the batches of a task stand in the order in which it made them.
fn batches_rise(journal: &[Batch], task: u16) -> bool {
    let mut last = 0;
    for batch in journal {
        if batch.task == task {
            if batch.seq <= last {
                return false;
            }
            last = batch.seq;
        }
    }
    last > 0
}

/// Whether the entries of a task stand in the order in which it made them.
fn entries_rise(history: &[Entry], task: u16) -> bool {
    let mut last = 0;
    for entry in history {
        if entry.task == task {
            if entry.seq <= last {
                return false;
            }
            last = entry.seq;
        }
    }
    last > 0
}

/// Whether a run left what the calls of each task of a crowd come to.
fn is_right(alloc: Global, crowd: Crowd, closed: &Closed) -> Result<bool, AllocError> {
    let journal = closed.journal().items();
    let history = closed.history().items();
    let entries = 200 + crowd.opened as usize;
    let mut right = journal.len() == 200 && history.len() == entries;
    for task in 0..crowd.tasks {
        right = right && batches_rise(journal, task) && entries_rise(history, task);
    }
    Ok(right && replays(alloc, journal, history)?)
}

/// Whether a run of a crowd keeps what is right.
fn runs_rightly<R: Threads + Wait + Sync + AllocGlobal>(
    rt: &R,
    crowd: Crowd,
    bytes: &[u8],
) -> Result<bool, Fail> {
    match runs(rt, crowd, bytes)? {
        Some(closed) => Ok(is_right(rt.alloc(), crowd, &closed)?),
        None => Ok(false),
    }
}

#[test]
fn four_tasks_at_once(rt: HostRuntime) -> Result<(), Fail> {
    let bytes = script(&rt, four())?;
    for _ in 0..ROUNDS {
        assert!(rt; runs_rightly(&rt, four(), bytes.as_slice())?);
    }
    Ok(())
}

#[test]
fn two_tasks_at_once(rt: HostRuntime) -> Result<(), Fail> {
    let bytes = script(&rt, two())?;
    assert!(rt; runs_rightly(&rt, two(), bytes.as_slice())?);
    Ok(())
}
