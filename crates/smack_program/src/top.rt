ghost use Rattle.std.specs.Prelude.{◌≡◌, ◌+◌, ◌↔◌, [], None, IsFalse, map, string_bytes};
ghost use Rattle.outside.specs.Seen.{seen};
ghost use Rattle.outside.specs.Reading.{ReadsAtMost};
ghost use Rattle.script_spec.specs.Grammar.{most_bytes};
ghost use Rattle.smack_program.specs.Statuses.{may_have_written};
ghost use Rattle.smack_program.specs.Replay.{AreReplay, ReplayEnds};
ghost use Rattle.smack_program.specs.Run.{AreRun, RunEnds};
ghost use Rattle.smack_program.specs.Program.{AreCommand};

use crate::command::{is_replay, is_run};
use crate::reading::read_input;
use crate::records::{replay_bytes, run_bytes};
use crate::status::Status;
use crate::writing::write_record;
use outside::{Gate, Sink, Source};
use script_run::Ran;
use smack_kernel::Closed;
use std::alloc::Global;
use std::sync::Wait;
use std::thread::Threads;

/// Reads a script to its end, replays it and writes its record. It waits for nobody. Nothing is
/// written before the replay has ended, and at `Done` the sink keeps nothing back.
pub fn replay_main<S: Source, K: Sink>(alloc: Global, source: &mut S, sink: &mut K) -> Status
    ensures ends { ReplayEnds (seen S.left S.faults source.old) (seen S.left S.faults source.new) (seen K.taken K.faults sink.old) (seen K.taken K.faults sink.new) result }
    ensures handed_on { result ≡ Status.Done → K.kept sink.new ≡ [] }
    ensures untouched { IsFalse (may_have_written result) → sink.new ≡ sink.old }
    ensures reads { ReadsAtMost (S.reads source.old) (S.reads source.new) (most_bytes + 2) }
{
    let bytes = match read_input(alloc, source) {
        Ok(bytes) => bytes,
        Err(status) => return status,
    };
    let record = match replay_bytes(alloc, bytes.as_slice()) {
        Ok(record) => record,
        Err(fault) => return Status::of_fault(fault),
    };
    match write_record(alloc, &record, sink) {
        Ok(()) => Status::Done,
        Err(status) => status,
    }
}

/// Reads a script to its end, runs each of its tasks on a thread of its own, and writes the record.
/// Nothing is written before the run has ended. At `Done` the sink keeps nothing back, and `kept` has
/// what the kernel of the tasks handed out. The gate is told of each line before it is run.
pub fn run_main<R: Threads + Wait + Sync, S: Source, K: Sink, G: Gate + Sync>(
    rt: &R,
    alloc: Global,
    source: &mut S,
    sink: &mut K,
    gate: &G,
    kept: &mut Option<Closed>,
) -> Status
    requires { kept.old ≡ None }
    ensures ends { RunEnds kept.new (seen S.left S.faults source.old) (seen S.left S.faults source.new) (seen K.taken K.faults sink.old) (seen K.taken K.faults sink.new) result }
    ensures handed_on { result ≡ Status.Done → K.kept sink.new ≡ [] }
    ensures untouched { IsFalse (may_have_written result) → sink.new ≡ sink.old }
    ensures reads { ReadsAtMost (S.reads source.old) (S.reads source.new) (most_bytes + 2) }
{
    let bytes = match read_input(alloc, source) {
        Ok(bytes) => bytes,
        Err(status) => return status,
    };
    let Ran { report, closed } = match run_bytes(rt, alloc, bytes.as_slice(), gate) {
        Ok(ran) => ran,
        Err(fault) => return Status::of_fault(fault),
    };
    match write_record(alloc, &report, sink) {
        Ok(()) => {
            *kept = Some(closed);
            Status::Done
        }
        Err(status) => status,
    }
}

/// Does what the words of the command line say: `replay` reads a script, replays it and writes its
/// record; `run` runs its tasks at once, and keeps what their kernel handed out. Any other words are
/// `Usage`, and nothing is read or written.
pub fn smack_main<R: Threads + Wait + Sync, S: Source, K: Sink, G: Gate + Sync>(
    rt: &R,
    alloc: Global,
    words: &[String],
    source: &mut S,
    sink: &mut K,
    gate: &G,
    kept: &mut Option<Closed>,
) -> Status
    requires { kept.old ≡ None }
    ensures replays { AreReplay (map string_bytes words.now) → ReplayEnds (seen S.left S.faults source.old) (seen S.left S.faults source.new) (seen K.taken K.faults sink.old) (seen K.taken K.faults sink.new) result }
    ensures runs { AreRun (map string_bytes words.now) → RunEnds kept.new (seen S.left S.faults source.old) (seen S.left S.faults source.new) (seen K.taken K.faults sink.old) (seen K.taken K.faults sink.new) result }
    ensures kept { ¬ AreRun (map string_bytes words.now) → kept.new ≡ None }
    ensures usage { (result ≡ Status.Usage) ↔ (¬ AreCommand (map string_bytes words.now)) }
    ensures unread { result ≡ Status.Usage → source.new ≡ source.old }
    ensures handed_on { result ≡ Status.Done → K.kept sink.new ≡ [] }
    ensures untouched { IsFalse (may_have_written result) → sink.new ≡ sink.old }
    ensures reads { ReadsAtMost (S.reads source.old) (S.reads source.new) (most_bytes + 2) }
{
    if is_replay(words) {
        replay_main(alloc, source, sink)
    } else if is_run(words) {
        run_main(rt, alloc, source, sink, gate, kept)
    } else {
        Status::Usage
    }
}
