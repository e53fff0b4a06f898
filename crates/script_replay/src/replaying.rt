ghost use Rattle.std.specs.Prelude.{◌≡◌, ◌≤◌, ◌∷◌, ◌++◌, [], length, map, IfOk};
ghost use Rattle.script_spec.specs.Grammar.{most_lines, most_script_tasks};
ghost use Rattle.script_spec.specs.Tasks.{task_names};
ghost use Rattle.script_text.specs.Lines.{call_seen};
ghost use Rattle.script_text.specs.Scripts.{AreRead};
ghost use Rattle.legal_spec.specs.Fits.{IsLegalFor};
ghost use Rattle.replay_spec.specs.Plain.{IsPlain};
ghost use Rattle.replay_spec.specs.Replays.{run_of, replayed};
ghost use Rattle.script_replay.specs.Running.{run_seen, IsRunning};

use crate::runner::Runner;
use label_table::Labels;
use record_spec::RunRecord;
use script_calls::names_of;
use script_text::{Line, Script};
use smack_base::{Bytes, NameList};
use std::alloc::{AllocError, Global};

/// So many calls run before the memory of those that have run goes back.
const CALLS_AT_ONCE: usize = 1024;

/// Gives memory back that calls have left, from time to time.
fn give_back(calls: &mut Vec<Line<'_>>)
    ensures { calls.new.items ≡ calls.old.items }
{
    if calls.len() % CALLS_AT_ONCE == 0 {
        calls.shrink_to_fit();
    }
}

/// Runs calls in order. Each leaves its list, so that not all of them stand beside the whole record.
fn run_lines(
    alloc: Global,
    labels: &Labels,
    names: &[Bytes],
    lines: Vec<Line<'_>>,
) -> Result<Runner, AllocError>
    requires lines { length lines.items ≤ most_lines }
    requires names { length names.now ≤ most_script_tasks }
    ensures { IfOk result (λ run. run_seen run ≡ run_of labels.now names.now (map call_seen lines.entry.items)) }
{
    let mut run = Runner::new(alloc)?;
    let mut left = lines;
    left.reverse();
    while let Some(line) = left.pop() {
        run.step(alloc, labels, names, &line)?;
        give_back(&mut left);
    }
    Ok(run)
}

/// The record of calls that have run.
fn report_of(
    alloc: Global,
    labels: Labels,
    names: NameList,
    run: Runner,
) -> Result<RunRecord, AllocError>
    ensures { IfOk result (λ r. r ≡ record { labels = labels; names = names; journal = (run_seen run).journal; history = (run_seen run).history; asked = (run_seen run).asked }) }
{
    let Runner {
        rules: _,
        journal,
        world,
        asked,
    } = run;
    Ok(RunRecord {
        labels,
        names,
        journal,
        history: world.into_trail(),
        asked: asked.into_lines(alloc)?,
    })
}

/// The record that all calls of a script leave.
fn record_of(alloc: Global, script: Script<'_>) -> Result<RunRecord, AllocError>
    ensures replayed { IfOk result (λ r. r ≡ replayed script.entry) }
    ensures read { AreRead script.entry }
{
    let (lines, tasks, labels) = script.into_parts();
    let names = names_of(alloc, tasks.as_slice())?;
    let run = run_lines(alloc, &labels, names.items(), lines)?;
    report_of(alloc, labels, names, run)
}

/// The same, from a copy of its calls.
fn record_of_copy(alloc: Global, script: &Script<'_>) -> Result<RunRecord, AllocError>
    ensures replayed { IfOk result (λ r. r ≡ replayed script.now) }
    ensures read { AreRead script.now }
{
    let lines = Vec::from_slice(alloc, script.lines())?;
    let labels = script.labels()?;
    let names = names_of(alloc, script.tasks())?;
    let run = run_lines(alloc, &labels, names.items(), lines)?;
    report_of(alloc, labels, names, run)
}

/// The record of a script that is replayed: its calls are taken in written order, each judged at
/// the newest version. The record is plain, and legal for the script.
#[tactic(auto, using(crate::proofs::LegalRecords::replayed_are_legal))]
pub fn replay(alloc: Global, script: &Script<'_>) -> Result<RunRecord, AllocError>
    ensures replayed { IfOk result (λ r. r ≡ replayed script.now) }
    ensures plain { IfOk result (λ r. IsPlain r) }
    ensures legal { IfOk result (λ r. IsLegalFor script.now r) }
{
    record_of_copy(alloc, script)
}

/// The same of a script that nobody needs afterwards: the memory of its calls goes back while they
/// run.
#[tactic(auto, using(crate::proofs::LegalRecords::replayed_are_legal))]
pub fn into_record(alloc: Global, script: Script<'_>) -> Result<RunRecord, AllocError>
    ensures replayed { IfOk result (λ r. r ≡ replayed script.entry) }
    ensures plain { IfOk result (λ r. IsPlain r) }
    ensures legal { IfOk result (λ r. IsLegalFor script.entry r) }
{
    record_of(alloc, script)
}
