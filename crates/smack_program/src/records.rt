ghost use Rattle.std.specs.Prelude.{◌≡◌};
ghost use Rattle.smack_program.specs.Replay.{GivesReplay};
ghost use Rattle.smack_program.specs.Run.{GivesRun};

use outside::Gate;
use record_spec::RunRecord;
use script_run::{Ran, into_record, run};
use script_text::{Script, ScriptFault};
use std::alloc::Global;
use std::sync::Wait;
use std::thread::Threads;

/// The record of the script that these bytes are, when it is replayed.
pub fn replay_bytes(alloc: Global, bytes: &[u8]) -> Result<RunRecord, ScriptFault>
    ensures { GivesReplay bytes.now result }
{
    let script = match Script::read(alloc, bytes) {
        Ok(script) => script,
        Err(fault) => return Err(fault),
    };
    match into_record(alloc, script) {
        Ok(record) => Ok(record),
        Err(_) => Err(ScriptFault::Memory),
    }
}

/// A record of the script that these bytes are, when its tasks run at once, and what their kernel
/// handed out.
pub fn run_bytes<R: Threads + Wait + Sync, G: Gate + Sync>(
    rt: &R,
    alloc: Global,
    bytes: &[u8],
    gate: &G,
) -> Result<Ran, ScriptFault>
    ensures { GivesRun bytes.now result }
{
    let script = match Script::read(alloc, bytes) {
        Ok(script) => script,
        Err(fault) => return Err(fault),
    };
    match run(rt, alloc, &script, gate) {
        Ok(ran) => Ok(ran),
        Err(_) => Err(ScriptFault::Memory),
    }
}
