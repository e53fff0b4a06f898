ghost use Rattle.std.specs.Prelude.{◌≡◌, ◌⊎◌, List, None, Ok, Err};
ghost use Rattle.script_spec.specs.declared.ScriptFault.{ScriptFault as ScriptFaultOf};
ghost use Rattle.script_spec.specs.Grammar.{parse};
ghost use Rattle.script_spec.specs.Lines.{ScriptLine};
ghost use Rattle.outside.specs.Seen.{calm};
ghost use Rattle.smack_program.specs.Statuses.{status_of};
ghost use Rattle.smack_program.specs.Replay.{ReplayEnds};
ghost use Rattle.smack_program.specs.Run.{RunEnds};

use crate::status::Status;
use crate::top::{replay_main, run_main};
use outside::{CalmSink, CalmSource, Gate};
use smack_kernel::Closed;
use std::alloc::Global;
use std::sync::Wait;
use std::thread::Threads;

/// A replay from a source and to a sink that never fail, and tell their bytes: it ends as a replay
/// does. A script is done, and other bytes are refused for their fault; want of memory alone is
/// excepted.
pub fn replay_calm(alloc: Global, source: &mut CalmSource, sink: &mut CalmSink) -> Status
    ensures ends { ReplayEnds (calm source.old) (calm source.new) (calm sink.old.taken) (calm sink.new.taken) result }
    ensures script { (lines : List ScriptLine) → parse source.old ≡ Ok lines → (result ≡ Status.Done) ⊎ (result ≡ Status.OutOfMemory) }
    ensures other { (fault : ScriptFaultOf) → parse source.old ≡ Err fault → (result ≡ status_of fault) ⊎ (result ≡ Status.OutOfMemory) }
{
    replay_main(alloc, source, sink)
}

/// A run from a source and to a sink that never fail, as a replay is.
pub fn run_calm<R: Threads + Wait + Sync, G: Gate + Sync>(
    rt: &R,
    alloc: Global,
    source: &mut CalmSource,
    sink: &mut CalmSink,
    gate: &G,
    kept: &mut Option<Closed>,
) -> Status
    requires { kept.old ≡ None }
    ensures ends { RunEnds kept.new (calm source.old) (calm source.new) (calm sink.old.taken) (calm sink.new.taken) result }
    ensures script { (lines : List ScriptLine) → parse source.old ≡ Ok lines → (result ≡ Status.Done) ⊎ (result ≡ Status.OutOfMemory) }
    ensures other { (fault : ScriptFaultOf) → parse source.old ≡ Err fault → (result ≡ status_of fault) ⊎ (result ≡ Status.OutOfMemory) }
{
    run_main(rt, alloc, source, sink, gate, kept)
}
