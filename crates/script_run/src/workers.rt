ghost use Rattle.std.specs.Prelude.{◌⊎◌, ◌≡◌, ◌≤◌, ◌<◌, ◌+◌, [], ◌∷◌, ◌++◌, ℕ, List, length, take, Some, false, is_some, IfSome};
ghost use Rattle.std.specs.Bool.{OnFalse};
ghost use Rattle.script_spec.specs.Grammar.{most_script_tasks};
ghost use Rattle.script_spec.specs.Lines.{ScriptLine, table_of};
ghost use Rattle.script_text.specs.Lines.{call_seen};
ghost use Rattle.replay_spec.specs.Acts.{act_of_line};
ghost use Rattle.legal_spec.specs.Calls.{Stands};
ghost use Rattle.runs_spec.specs.Scripts.{scripted, ForksTask, ForksFirst, segment, lines_by};
ghost use Rattle.runs_spec.specs.Runs.{Ran};
ghost use Rattle.runs_spec.specs.Meetings.{Met};
ghost use Rattle.runs_spec.specs.Orders.{IsOrderly};
ghost use Rattle.script_run.specs.Shared.{script_in};
ghost use Rattle.script_run.specs.Stages.{stage_script, IsForkRun, IsWaitRun};
ghost use Rattle.script_run.specs.Stops.{IsCause, IsForkCause, IsOwnStop, IsMeetCause, without_child};

use crate::making::{Stop, note, plain_line};
use crate::stage::{PlacedLines, ScriptLines, Span, Stage, count, next_line, wait_place};
use asked_lines::{AskedBlocks, AskedLine, AskedWhat};
use outside::Gate;
use script_calls::{Act, act_of, names_of};
use script_text::{Line, Script};
use smack_base::{Bytes, Pid};
use smack_kernel::{Called, Kernel, Task};
use std::alloc::Global;
use std::sync::Wait;
use std::thread::{Threads, join};

/// What a worker hands back: its task, the asked, refused and waited lines of this task and of those
/// that it adopted, and why it stopped before its last line, if it did.
#[derive(Drop)]
pub struct Worked {
    pub task: Task,
    pub asked: AskedBlocks,
    pub stop: Option<Stop>,
}

/// A worker behind a line: what it would hand back, and the place where it goes on.
#[derive(Drop)]
pub struct Reached {
    pub worked: Worked,
    pub at: usize,
}

/// Why a fork has no child.
fn why_no_child(called: &Called) -> Stop
    ensures { result ≡ without_child called.now }
{
    match called {
        Called::Entry(_) => Stop::NoChild,
        Called::TrailFull(_) => Stop::TrailFull,
        Called::SeqFull(_) => Stop::SeqFull,
    }
}

/// The child of a fork; or why there is none.
fn fork<R: Wait>(
    rt: &R,
    alloc: Global,
    kernel: &Kernel,
    task: &mut Task,
    child: Pid,
) -> Result<Task, Stop>
    requires table { task.old.table ≡ kernel.now.table }
    requires top { task.old.version ≤ length task.old.journal }
    ensures forked { IsForkRun task.old task.new child result }
    ensures cause { IsForkCause task.old task.new result }
{
    let Ok((called, kid)) = kernel.fork(rt, alloc, task, child) else {
        return Err(Stop::Memory);
    };
    match kid {
        Some(kid) => Ok(kid),
        None => Err(why_no_child(&called)),
    }
}

/// The asked lines of both halves of a fork, put together; or what stopped a half, or that memory for
/// them is short.
fn gather(
    asked: &mut AskedBlocks,
    more: AskedBlocks,
    stop: Option<Stop>,
    failed: Option<Stop>,
) -> Option<Stop>
    ensures asked { OnFalse (is_some result) ((is_some stop ≡ false) × (is_some failed ≡ false) × (asked.new ≡ asked.old ++ more)) }
    ensures cause { IfSome result (λ why. (stop ≡ Some why) ⊎ ((failed ≡ Some why) ⊎ (why ≡ Stop.Memory))) }
{
    if stop.is_some() {
        return stop;
    }
    if failed.is_some() {
        return failed;
    }
    match asked.append(more) {
        Ok(()) => None,
        Err(_) => Some(Stop::Memory),
    }
}

/// Runs the line by which a task waits for a child that it has adopted.
fn wait_line(kernel: &Kernel, task: &mut Task, asked: &mut AskedBlocks, child: Pid) -> Option<Stop>
    requires table { task.old.table ≡ kernel.now.table }
    ensures awaited { IsWaitRun task.old task.new child (is_some result) asked.old asked.new }
    ensures cause { IfSome result (IsOwnStop task.new) }
{
    let number = task.number();
    let seq = task.made() + 1;
    let Ok(version) = kernel.mark(task) else {
        return Some(Stop::SeqFull);
    };
    let line = AskedLine {
        task: number,
        seq,
        version,
        what: AskedWhat::Wait { pid: child },
    };
    note(asked, line)
}

/// Both halves of a fork have ended: the task adopts the child and, where a line at `until` waits for
/// it, this line is run.
fn meet<G, S: ScriptLines>(
    stage: Stage<'_, G, S>,
    mine: Worked,
    theirs: Worked,
    child: Pid,
    until: usize,
    to: usize,
) -> Reached
    requires tables { (mine.task.table ≡ stage.kernel.now.table) × (theirs.task.table ≡ stage.kernel.now.table) }
    requires place { until ≤ to }
    ensures met { Met (stage_script S.told stage.entry) child.0 (is_some mine.stop) (is_some theirs.stop) (is_some result.worked.stop) mine.task theirs.task result.worked.task mine.asked theirs.asked result.worked.asked until to result.at }
    ensures cause { IfSome result.worked.stop (IsMeetCause mine.stop theirs.stop mine.task theirs.task result.worked.task) }
{
    let Worked {
        mut task,
        mut asked,
        stop,
    } = mine;
    let Worked {
        task: kid,
        asked: more,
        stop: failed,
    } = theirs;
    stage.kernel.adopt(&mut task, kid);
    let stop = gather(&mut asked, more, stop, failed);
    if stop.is_some() || until == to {
        return Reached {
            worked: Worked { task, asked, stop },
            at: until,
        };
    }
    let stop = wait_line(stage.kernel, &mut task, &mut asked, child);
    Reached {
        worked: Worked { task, asked, stop },
        at: until + 1,
    }
}

/// Runs a line that neither makes a task nor waits for one.
fn plain_step<R: Wait, G, S: ScriptLines>(
    rt: &R,
    stage: Stage<'_, G, S>,
    mut task: Task,
    mut asked: AskedBlocks,
    line: &Line<'_>,
    act: Act,
    at: usize,
) -> Reached
    requires table { task.table ≡ stage.kernel.now.table }
    requires top { task.version ≤ length task.journal }
    requires act { act_of_line stage.kernel.now.labels stage.names.now (call_seen line.now) ≡ Some act }
    requires plain { (pid : Pid) → act ≡ Act.Fork pid → ⊥ }
    ensures ran { (ls : List ScriptLine) → Ran (is_some result.worked.stop) (stage_script S.told stage.entry) (call_seen line.now ∷ ls) ls task result.worked.task asked result.worked.asked }
    ensures cause { (ls : List ScriptLine) → IfSome result.worked.stop (IsCause (stage_script S.told stage.entry) (call_seen line.now ∷ ls) task result.worked.task) }
    ensures at { result.at ≡ at }
    ensures orderly { (ls : List ScriptLine) → IsOrderly (stage_script S.told stage.entry) (call_seen line.now ∷ ls) → IsOrderly (stage_script S.told stage.entry) ls }
{
    let stop = plain_line(rt, stage, &mut task, &mut asked, line, act);
    Reached {
        worked: Worked { task, asked, stop },
        at,
    }
}

/// The rest of a task's own lines up to a place, and the lines of its child, side by side. What is
/// joined captures the parts of the stage, and not the stage.
#[cycle(work)]
fn halves<R: Threads + Wait + Sync, G: Gate + Sync, S: ScriptLines + Sync>(
    rt: &R,
    stage: Stage<'_, G, S>,
    task: Task,
    asked: AskedBlocks,
    kid: Task,
    child: u16,
    span: Span,
) -> (Worked, Worked)
    requires tables { (task.table ≡ stage.kernel.now.table) × (kid.table ≡ stage.kernel.now.table) }
    requires top { (task.version ≤ length task.journal) × (kid.version ≤ length kid.journal) }
    requires place { (span.from ≤ span.to) × (span.to ≤ length (S.told stage.script.now)) }
    requires names { length stage.names.now ≤ most_script_tasks }
    requires forks { ForksFirst (stage_script S.told stage) }
    ensures mine { Ran (is_some result.0.stop) (stage_script S.told stage.entry) (segment span.pid span.from span.to (S.told stage.entry.script.now)) [] task result.0.task asked result.0.asked }
    ensures theirs { Ran (is_some result.1.stop) (stage_script S.told stage.entry) (segment child span.from (length (S.told stage.entry.script.now)) (S.told stage.entry.script.now)) [] kid result.1.task [] result.1.asked }
    ensures my_cause { IfSome result.0.stop (IsCause (stage_script S.told stage.entry) (segment span.pid span.from span.to (S.told stage.entry.script.now)) task result.0.task) }
    ensures their_cause { IfSome result.1.stop (IsCause (stage_script S.told stage.entry) (segment child span.from (length (S.told stage.entry.script.now)) (S.told stage.entry.script.now)) kid result.1.task) }
{
    let (alloc, gate) = (stage.alloc, stage.gate);
    let (kernel, names, script) = (stage.kernel, stage.names, stage.script);
    join(
        rt,
        || -> Worked
            requires { (task.table ≡ kernel.now.table) × (task.version ≤ length task.journal) × (span.from ≤ span.to) × (span.to ≤ length (S.told script.now)) × (length names.now ≤ most_script_tasks) × ForksFirst (script_in kernel.now.labels names.now (S.told script.now)) }
            ensures ran { Ran (is_some result.stop) (script_in kernel.entry.now.labels names.entry.now (S.told script.entry.now)) (segment span.pid span.from span.to (S.told script.entry.now)) [] task result.task asked result.asked }
            ensures cause { IfSome result.stop (IsCause (script_in kernel.entry.now.labels names.entry.now (S.told script.entry.now)) (segment span.pid span.from span.to (S.told script.entry.now)) task result.task) }
        {
            let stage = Stage {
                alloc,
                gate,
                kernel,
                names,
                script,
            };
            go(rt, stage, task, asked, span)
        },
        || -> Worked
            requires { (kid.table ≡ kernel.now.table) × (kid.version ≤ length kid.journal) × (span.from ≤ length (S.told script.now)) × (length names.now ≤ most_script_tasks) × ForksFirst (script_in kernel.now.labels names.now (S.told script.now)) }
            ensures ran { Ran (is_some result.stop) (script_in kernel.entry.now.labels names.entry.now (S.told script.entry.now)) (segment child span.from (length (S.told script.entry.now)) (S.told script.entry.now)) [] kid result.task [] result.asked }
            ensures cause { IfSome result.stop (IsCause (script_in kernel.entry.now.labels names.entry.now (S.told script.entry.now)) (segment child span.from (length (S.told script.entry.now)) (S.told script.entry.now)) kid result.task) }
        {
            let stage = Stage {
                alloc,
                gate,
                kernel,
                names,
                script,
            };
            let theirs = Span {
                pid: child,
                from: span.from,
                to: count(script),
            };
            go(rt, stage, kid, AskedBlocks::new(alloc), theirs)
        },
    )
}

/// Runs a line that forks a task: the lines of this child, and the rest of the task's own up to the
/// wait for it, are run side by side.
#[cycle(work)]
fn fork_line<R: Threads + Wait + Sync, G: Gate + Sync, S: ScriptLines + Sync>(
    rt: &R,
    stage: Stage<'_, G, S>,
    mut task: Task,
    asked: AskedBlocks,
    line: &Line<'_>,
    child: Pid,
    span: Span,
) -> Reached
    requires table { task.table ≡ stage.kernel.now.table }
    requires top { task.version ≤ length task.journal }
    requires place { (span.from ≤ span.to) × (span.to ≤ length (S.told stage.script.now)) }
    requires names { length stage.names.now ≤ most_script_tasks }
    requires forks { ForksFirst (stage_script S.told stage) }
    requires first { lines_by child.0 (take span.from (S.told stage.script.now)) ≡ [] }
    requires line { ForksTask (stage_script S.told stage) (call_seen line.now) child.0 }
    ensures ran { Ran (is_some result.worked.stop) (stage_script S.told stage.entry) (call_seen line.now ∷ segment span.pid span.from span.to (S.told stage.entry.script.now)) (segment span.pid result.at span.to (S.told stage.entry.script.now)) task result.worked.task asked result.worked.asked }
    ensures place { is_some result.worked.stop ≡ false → (span.from ≤ result.at) × (result.at ≤ span.to) }
    ensures orderly { is_some result.worked.stop ≡ false → IsOrderly (stage_script S.told stage.entry) (call_seen line.now ∷ segment span.pid span.from span.to (S.told stage.entry.script.now)) → IsOrderly (stage_script S.told stage.entry) (segment span.pid result.at span.to (S.told stage.entry.script.now)) }
    ensures cause { IfSome result.worked.stop (IsCause (stage_script S.told stage.entry) (call_seen line.now ∷ segment span.pid span.from span.to (S.told stage.entry.script.now)) task result.worked.task) }
{
    match fork(rt, stage.alloc, stage.kernel, &mut task, child) {
        Err(stop) => Reached {
            worked: Worked {
                task,
                asked,
                stop: Some(stop),
            },
            at: span.from,
        },
        Ok(kid) => {
            let until = wait_place(stage, span.pid, child, span.from, span.to);
            let own = Span {
                pid: span.pid,
                from: span.from,
                to: until,
            };
            let (mine, theirs) = halves(rt, stage, task, asked, kid, child.0, own);
            meet(stage, mine, theirs, child, until, span.to)
        }
    }
}

/// Runs one line: `span` are the lines behind it.
#[cycle(work)]
fn step<R: Threads + Wait + Sync, G: Gate + Sync, S: ScriptLines + Sync>(
    rt: &R,
    stage: Stage<'_, G, S>,
    task: Task,
    asked: AskedBlocks,
    line: &Line<'_>,
    span: Span,
) -> Reached
    requires table { task.table ≡ stage.kernel.now.table }
    requires top { task.version ≤ length task.journal }
    requires place { (span.from ≤ span.to) × (span.to ≤ length (S.told stage.script.now)) }
    requires names { length stage.names.now ≤ most_script_tasks }
    requires forks { ForksFirst (stage_script S.told stage) }
    requires here { (n : ℕ) × Stands (S.told stage.script.now) n (call_seen line.now) × (span.from ≡ n + 1) }
    ensures ran { Ran (is_some result.worked.stop) (stage_script S.told stage.entry) (call_seen line.now ∷ segment span.pid span.from span.to (S.told stage.entry.script.now)) (segment span.pid result.at span.to (S.told stage.entry.script.now)) task result.worked.task asked result.worked.asked }
    ensures place { is_some result.worked.stop ≡ false → (span.from ≤ result.at) × (result.at ≤ span.to) }
    ensures orderly { is_some result.worked.stop ≡ false → IsOrderly (stage_script S.told stage.entry) (call_seen line.now ∷ segment span.pid span.from span.to (S.told stage.entry.script.now)) → IsOrderly (stage_script S.told stage.entry) (segment span.pid result.at span.to (S.told stage.entry.script.now)) }
    ensures cause { IfSome result.worked.stop (IsCause (stage_script S.told stage.entry) (call_seen line.now ∷ segment span.pid span.from span.to (S.told stage.entry.script.now)) task result.worked.task) }
{
    let stop = match act_of(stage.alloc, stage.kernel.labels(), stage.names, line) {
        Ok(Some(Act::Fork(child))) => {
            return fork_line(rt, stage, task, asked, line, child, span);
        }
        Ok(Some(act)) => return plain_step(rt, stage, task, asked, line, act, span.from),
        Ok(None) => Stop::Unscripted,
        Err(_) => Stop::Memory,
    };
    Reached {
        worked: Worked {
            task,
            asked,
            stop: Some(stop),
        },
        at: span.from,
    }
}

/// Tells the gate of the line at a place, if one stands there.
fn announce<G: Gate, S: ScriptLines>(stage: Stage<'_, G, S>, pid: u16, at: usize) {
    if let Some(line) = stage.script.calls().get(at) {
        stage.gate.before(u32::from(pid), line.seq);
    }
}

/// Runs the lines of a script task between two places, and all lines of the tasks that it forks
/// there.
#[cycle(work)]
fn go<R: Threads + Wait + Sync, G: Gate + Sync, S: ScriptLines + Sync>(
    rt: &R,
    stage: Stage<'_, G, S>,
    task: Task,
    asked: AskedBlocks,
    span: Span,
) -> Worked
    requires table { task.table ≡ stage.kernel.now.table }
    requires top { task.version ≤ length task.journal }
    requires place { (span.from ≤ span.to) × (span.to ≤ length (S.told stage.script.now)) }
    requires names { length stage.names.now ≤ most_script_tasks }
    requires forks { ForksFirst (stage_script S.told stage) }
    ensures ran { Ran (is_some result.stop) (stage_script S.told stage.entry) (segment span.pid span.from span.to (S.told stage.entry.script.now)) [] task result.task asked result.asked }
    ensures cause { IfSome result.stop (IsCause (stage_script S.told stage.entry) (segment span.pid span.from span.to (S.told stage.entry.script.now)) task result.task) }
{
    let mut task = task;
    let mut asked = asked;
    let mut at = span.from;
    while let Some((line, after)) = next_line(stage.script, span.pid, at, span.to) {
        stage.gate.before(u32::from(span.pid), line.seq);
        let behind = Span {
            pid: span.pid,
            from: after,
            to: span.to,
        };
        let Reached { worked, at: place } = step(rt, stage, task, asked, &line, behind);
        if worked.stop.is_some() {
            return worked;
        }
        let Worked {
            task: later,
            asked: more,
            stop: _,
        } = worked;
        task = later;
        asked = more;
        at = place;
    }
    announce(stage, span.pid, span.to);
    Worked {
        task,
        asked,
        stop: None,
    }
}

/// Runs the lines of a script task at a kernel, and those of the tasks that it forks, each task on a
/// thread of its own. The task is the kernel's, and the kernel has the labels of the script. A worker
/// that stops hands its task back as well, with all that it and its children did. Each line of a
/// task is shown to the gate before it is run.
pub fn work<R: Threads + Wait + Sync, G: Gate + Sync>(
    rt: &R,
    alloc: Global,
    kernel: &Kernel,
    task: Task,
    pid: Pid,
    script: &Script<'_>,
    gate: &G,
) -> Worked
    requires table { task.table ≡ kernel.now.table }
    requires labels { kernel.now.labels ≡ table_of script.now }
    ensures ran { Ran (is_some result.stop) (scripted script.now) (lines_by pid.0 script.now) [] task result.task [] result.asked }
    ensures cause { IfSome result.stop (IsCause (scripted script.now) (lines_by pid.0 script.now) task result.task) }
{
    // That a task's rules are no newer than the journal that it has seen, its version tells.
    let _ = task.version();
    let asked = AskedBlocks::new(alloc);
    let Ok(names) = names_of(alloc, script.tasks()) else {
        return Worked {
            task,
            asked,
            stop: Some(Stop::Memory),
        };
    };
    let Ok(placed) = PlacedLines::new(alloc, script.lines()) else {
        return Worked {
            task,
            asked,
            stop: Some(Stop::Memory),
        };
    };
    let stage = Stage {
        alloc,
        gate,
        kernel,
        names: names.items(),
        script: &placed,
    };
    let span = Span {
        pid: pid.0,
        from: 0,
        to: count(&placed),
    };
    go(rt, stage, task, asked, span)
}
