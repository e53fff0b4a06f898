ghost use Rattle.std.specs.Prelude.{◌≡◌, IfOk, IfErr};
ghost use Rattle.script_spec.specs.Lines.{table_of};
ghost use Rattle.replay_spec.specs.Plain.{IsPlain};
ghost use Rattle.legal_spec.specs.Fits.{IsLegalFor};
ghost use Rattle.run_laws.specs.Laws.{run_record};
ghost use Rattle.script_run.specs.Closings.{HasRun};

use crate::making::Stop;
use crate::workers::{Worked, work};
use asked_lines::AskedBlocks;
use outside::Gate;
use record_spec::RunRecord;
use script_calls::names_of;
use script_text::Script;
use smack_base::{Duplicate, Pid};
use smack_kernel::{Closed, Kernel};
use std::alloc::{AllocError, Global};
use std::sync::Wait;
use std::thread::Threads;

/// A script that was run: its record, and what the closed kernel of its tasks handed out.
#[derive(Drop)]
pub struct Ran {
    pub report: RunRecord,
    pub closed: Closed,
}

/// Runs the tasks of a script at a kernel of their own, and closes it: what it hands out, and the
/// asked, refused and waited lines. Where it cannot, memory is short: a script's tasks find room for
/// each of their calls, each of their forks makes a task, and each of their lines can be run.
fn close_run<R: Threads + Wait + Sync, G: Gate + Sync>(
    rt: &R,
    alloc: Global,
    script: &Script<'_>,
    gate: &G,
) -> Result<(Closed, AskedBlocks), Stop>
    ensures has_run { IfOk result (λ r. HasRun script.now r.0 r.1) }
    ensures stop { IfErr result (λ stop. stop ≡ Stop.Memory) }
{
    let Ok(labels) = script.labels() else {
        return Err(Stop::Memory);
    };
    let Ok((kernel, task)) = Kernel::boot(alloc, labels) else {
        return Err(Stop::Memory);
    };
    let Worked { task, asked, stop } = work(rt, alloc, &kernel, task, Pid(0), script, gate);
    let Ok(closed) = kernel.close(alloc, task) else {
        return Err(Stop::Memory);
    };
    match stop {
        Some(stop) => Err(stop),
        None => Ok((closed, asked)),
    }
}

/// The record of tasks that have run.
fn report_of(
    alloc: Global,
    script: &Script<'_>,
    closed: &Closed,
    asked: AskedBlocks,
) -> Result<RunRecord, AllocError>
    ensures { IfOk result (λ r. r ≡ record (run_record script.now closed.now asked) { labels = closed.now.labels }) }
{
    Ok(RunRecord {
        labels: closed.labels().copy()?,
        names: names_of(alloc, script.tasks())?,
        journal: closed.journal().copy()?,
        history: closed.history().copy()?,
        asked: asked.by_task(alloc)?,
    })
}

/// Runs a script, each task on a thread of its own, and gives its record with what the closed kernel
/// handed out. However the threads interleave, the record is legal for the script: it is one history
/// of one world under one journal of rules. It is plain too: its text tells all of it. Its labels, its
/// journal and its history are those of the kernel.
pub fn run<R: Threads + Wait + Sync, G: Gate + Sync>(
    rt: &R,
    alloc: Global,
    script: &Script<'_>,
    gate: &G,
) -> Result<Ran, AllocError>
    ensures legal { IfOk result (λ r. IsLegalFor script.now r.report) }
    ensures plain { IfOk result (λ r. IsPlain r.report) }
    ensures closed { IfOk result (λ r. (r.report.labels ≡ r.closed.labels) × (r.report.journal ≡ r.closed.journal) × (r.report.history ≡ r.closed.history)) }
{
    let Ok((closed, asked)) = close_run(rt, alloc, script, gate) else {
        return Err(AllocError);
    };
    let report = report_of(alloc, script, &closed, asked)?;
    Ok(Ran { report, closed })
}
