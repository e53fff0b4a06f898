use outside::{CalmSink, CalmSource, Gate, MemSink, MemSource, OpenGate, Sink, Source};
use smack_kernel::Closed;
use smack_program::{Status, smack_main};
use std::process::Abort;
use std::sync::Wait;
use std::sync::atomic::{AtomicBool, Ordering};
use std::test::Fail;
use std::thread;
use std::thread::Threads;

/// How `run` of what a source gives ends, and what is kept of it.
pub fn run_of<R: Threads + Wait + Sync + AllocGlobal, S: Source, K: Sink, G: Gate + Sync>(
    rt: &R,
    source: &mut S,
    sink: &mut K,
    gate: &G,
) -> Result<(Status, Option<Closed>), Fail> {
    let words = vec![in rt.alloc(); String::from_str(rt.alloc(), "run")?]?;
    let mut kept = None;
    let status = smack_main(
        rt,
        rt.alloc(),
        words.as_slice(),
        source,
        sink,
        gate,
        &mut kept,
    );
    Ok((status, kept))
}

/// Whether `run` of a script writes one of these texts, and keeps something.
fn runs_to<R: Threads + Wait + Sync + AllocGlobal, G: Gate + Sync>(
    rt: &R,
    script: &[u8],
    gate: &G,
    texts: &[&str],
) -> Result<bool, Fail> {
    let mut source = CalmSource::new(Vec::from_slice(rt.alloc(), script)?);
    let mut sink = CalmSink::new(rt.alloc(), 7);
    let (status, kept) = run_of(rt, &mut source, &mut sink, gate)?;
    let is_one = texts.iter().any(|text| text.as_bytes() == sink.taken());
    Ok(status == Status::Done && kept.is_some() && is_one)
}

#[test]
fn an_empty_script(rt: HostRuntime) -> Result<(), Fail> {
    assert!(rt; runs_to(&rt, b"", &OpenGate, &["smack 1\ntask 0 init\nend 0 0 0\n"])?);
    Ok(())
}

/// A child that takes back a rule, and its parent that waits for it and then asks.
const WAITED: &[u8] =
    b"init write load2 1\nA C r\ninit fork B\nB write revoke-subject 1\nA\nB exit\ninit wait B\ninit ask A C r\n";

const WAITED_RECORD: &str =
    "smack 1\ntask 0 init\ntask 1 B\nj 1 0.1 1\no set A C r\nj 2 1.1 1\no revoke A\nh 1 0.2 v1 fork B\n= child 1\nh 2 1.2 v2 exit\n= ok\nq 0.3 v2 wait B\n= ok\nq 0.4 v2 ask A C r\n= deny 7\nend 2 2 2\n";

#[test]
fn a_parent_that_waits_has_one_record(rt: HostRuntime) -> Result<(), Fail> {
    for _ in 0..20 {
        assert!(rt; runs_to(&rt, WAITED, &OpenGate, &[WAITED_RECORD])?);
    }
    Ok(())
}

/// How many turns a task waits for another.
const TURNS: u32 = 50_000_000;

/// Whether a flag was raised before the turns ran out.
fn sees(flag: &AtomicBool) -> bool {
    for _ in 0..TURNS {
        if flag.load(Ordering::SeqCst) {
            return true;
        }
        thread::yield_now();
    }
    false
}

/// Two tasks that meet: each waits before a line of its own until the other has come to its line.
#[derive(Drop)]
struct Meeting {
    parent_came: AtomicBool,
    child_came: AtomicBool,
    missed: AtomicBool,
}

impl Gate for Meeting {
    fn before(&self, task: u32, seq: u32) {
        let (mine, other) = match (task, seq) {
            (0, 2) => (&self.parent_came, &self.child_came),
            (1, 1) => (&self.child_came, &self.parent_came),
            _ => return,
        };
        mine.store(true, Ordering::SeqCst);
        if !sees(other) {
            self.missed.store(true, Ordering::SeqCst);
        }
    }
}

/// No order of the lines on one thread lets both tasks come before either goes on.
#[test]
fn two_tasks_run_at_once(rt: HostRuntime) -> Result<(), Fail> {
    let gate = Meeting {
        parent_came: AtomicBool::new(false),
        child_came: AtomicBool::new(false),
        missed: AtomicBool::new(false),
    };
    let parent_first =
        "smack 1\ntask 0 init\ntask 1 B\nh 1 0.1 v0 fork B\n= child 1\nh 2 0.2 v0 take\n= again\nh 3 1.1 v0 take\n= again\nend 0 3 0\n";
    let child_first =
        "smack 1\ntask 0 init\ntask 1 B\nh 1 0.1 v0 fork B\n= child 1\nh 2 1.1 v0 take\n= again\nh 3 0.2 v0 take\n= again\nend 0 3 0\n";
    let script = b"init fork B\nB take\ninit take\n";
    assert!(rt; runs_to(&rt, script, &gate, &[parent_first, child_first])?);
    assert!(rt; !gate.missed.load(Ordering::SeqCst));
    Ok(())
}

/// The parent waits before its second line until its child has come to its second.
#[derive(Drop)]
struct ChildFirst {
    child_came: AtomicBool,
    missed: AtomicBool,
}

impl Gate for ChildFirst {
    fn before(&self, task: u32, seq: u32) {
        match (task, seq) {
            (0, 2) => {
                if !sees(&self.child_came) {
                    self.missed.store(true, Ordering::SeqCst);
                }
            }
            (1, 2) => self.child_came.store(true, Ordering::SeqCst),
            _ => {}
        }
    }
}

/// The child's rule is there before the parent makes its file, although it stands behind it in the
/// script: a replay makes the file in version 0.
#[test]
fn a_child_runs_ahead_of_the_written_order(rt: HostRuntime) -> Result<(), Fail> {
    let gate = ChildFirst {
        child_came: AtomicBool::new(false),
        missed: AtomicBool::new(false),
    };
    let parent_first =
        "smack 1\ntask 0 init\ntask 1 B\nj 1 1.1 1\no set A C r\nh 1 0.1 v0 fork B\n= child 1\nh 2 0.2 v1 create /f\nc _ _ x allow 3\nc _ _ rw allow 5\n= ok\nh 3 1.2 v1 take\n= again\nend 1 3 0\n";
    let child_first =
        "smack 1\ntask 0 init\ntask 1 B\nj 1 1.1 1\no set A C r\nh 1 0.1 v0 fork B\n= child 1\nh 2 1.2 v1 take\n= again\nh 3 0.2 v1 create /f\nc _ _ x allow 3\nc _ _ rw allow 5\n= ok\nend 1 3 0\n";
    let script = b"init fork B\ninit create /f\nB write load2 1\nA C r\nB take\n";
    assert!(rt; runs_to(&rt, script, &gate, &[parent_first, child_first])?);
    assert!(rt; !gate.missed.load(Ordering::SeqCst));
    Ok(())
}

/// A run whose text is not written whole keeps nothing.
#[test]
fn nothing_is_kept_of_a_run_that_is_not_written(rt: HostRuntime) -> Result<(), Fail> {
    let mut source = MemSource::new(Vec::from_slice(rt.alloc(), WAITED)?, Vec::new(rt.alloc()));
    let mut sink = MemSink::new(rt.alloc(), 8, vec![in rt.alloc(); 3u32]?);
    let (status, kept) = run_of(&rt, &mut source, &mut sink, &OpenGate)?;
    assert!(rt; status == Status::WriteFault && kept.is_none());
    Ok(())
}
