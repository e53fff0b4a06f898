ghost use Rattle.std.specs.Prelude.{◌≡◌, ◌≤◌, ◌<◌, ◌+◌, [], ◌∷◌, ◌++◌, ℕ, List, length, Some, is_some, IfSome};
ghost use Rattle.std.specs.Bool.{OnFalse};
ghost use Rattle.smack_base.specs.declared.ids.Pid.{Pid};
ghost use Rattle.script_spec.specs.Lines.{ScriptLine, word_in};
ghost use Rattle.script_text.specs.Lines.{call_seen};
ghost use Rattle.replay_spec.specs.Acts.{act_of_line};
ghost use Rattle.smack_kernel.specs.Tasks.{most_calls};
ghost use Rattle.runs_spec.specs.Runs.{Ran};
ghost use Rattle.script_run.specs.Stages.{stage_script};
ghost use Rattle.script_run.specs.Stops.{IsCause};

use crate::stage::{ScriptLines, Stage};
use asked_lines::{AskedBlocks, AskedLine, AskedWhat};
use script_calls::Act;
use script_text::Line;
use smack_base::{Bytes, LabelId, Modes};
use smack_kernel::{Asked, Called, Task, Written};
use smack_world::Call;
use smackfs::Refusal;
use std::alloc::Global;
use std::sync::Wait;

/// Why a worker stopped before its last line.
#[derive(Clone, Copy, PartialEq, Eq)]
pub enum Stop {
    /// Want of memory.
    Memory,
    /// The history has 131,072 entries.
    TrailFull,
    /// A fork made no task.
    NoChild,
    /// A task has made 1,048,575 calls.
    SeqFull,
    /// A line that stands in no script: its words are not of their kinds or not known, or it waits for
    /// another task than the latest open child of its own.
    Unscripted,
}

/// One more line that is neither a batch nor an object call.
pub fn note(asked: &mut AskedBlocks, line: AskedLine) -> Option<Stop>
    ensures line { OnFalse (is_some result) (asked.new ≡ asked.old ++ line ∷ []) }
    ensures stop { IfSome result (λ stop. stop ≡ Stop.Memory) }
{
    match asked.push(line) {
        Ok(()) => None,
        Err(_) => Some(Stop::Memory),
    }
}

/// Asks a question.
fn ask_line<G, S: ScriptLines>(
    stage: Stage<'_, G, S>,
    task: &mut Task,
    asked: &mut AskedBlocks,
    line: &Line<'_>,
    question: (LabelId, LabelId, Modes),
) -> Option<Stop>
    requires table { task.old.table ≡ stage.kernel.now.table }
    requires top { task.old.version ≤ length task.old.journal }
    requires act { act_of_line stage.kernel.now.labels stage.names.now (call_seen line.now) ≡ Some (Act.Ask question.0 question.1 question.2) }
    ensures ran { (ls : List ScriptLine) → Ran (is_some result) (stage_script S.told stage.entry) (call_seen line.now ∷ ls) ls task.old task.new asked.old asked.new }
    ensures cause { (ls : List ScriptLine) → IfSome result (IsCause (stage_script S.told stage.entry) (call_seen line.now ∷ ls) task.old task.new) }
{
    let (s, o, m) = question;
    let number = task.number();
    let seq = task.made() + 1;
    match stage.kernel.ask(stage.alloc, task, s, o, m) {
        Ok(Asked::Verdict { version, verdict }) => note(
            asked,
            AskedLine {
                task: number,
                seq,
                version,
                what: AskedWhat::Ask(verdict),
            },
        ),
        Ok(Asked::SeqFull) => Some(Stop::SeqFull),
        Err(_) => Some(Stop::Memory),
    }
}

/// Keeps the line of a refused write.
fn refuse(
    alloc: Global,
    asked: &mut AskedBlocks,
    line: &Line<'_>,
    call: (u16, u32, u32),
    fault: Refusal,
) -> Option<Stop>
    ensures line { OnFalse (is_some result) (asked.new ≡ asked.old ++ record { task = call.0; seq = call.1; version = call.2; what = AskedWhat.Refused (word_in 1 (call_seen line.now)) fault } ∷ []) }
    ensures stop { IfSome result (λ stop. stop ≡ Stop.Memory) }
{
    let (task, seq, version) = call;
    let Ok(file) = Bytes::from_slice(alloc, line.word(1)) else {
        return Some(Stop::Memory);
    };
    note(
        asked,
        AskedLine {
            task,
            seq,
            version,
            what: AskedWhat::Refused { file, fault },
        },
    )
}

/// Writes the text of a line.
fn write_line<R: Wait, G, S: ScriptLines>(
    rt: &R,
    stage: Stage<'_, G, S>,
    task: &mut Task,
    asked: &mut AskedBlocks,
    line: &Line<'_>,
) -> Option<Stop>
    requires table { task.old.table ≡ stage.kernel.now.table }
    requires top { task.old.version ≤ length task.old.journal }
    requires act { act_of_line stage.kernel.now.labels stage.names.now (call_seen line.now) ≡ Some Act.Write }
    ensures ran { (ls : List ScriptLine) → Ran (is_some result) (stage_script S.told stage.entry) (call_seen line.now ∷ ls) ls task.old task.new asked.old asked.new }
    ensures cause { (ls : List ScriptLine) → IfSome result (IsCause (stage_script S.told stage.entry) (call_seen line.now ∷ ls) task.old task.new) }
{
    let number = task.number();
    let seq = task.made() + 1;
    let file = line.word(1);
    match stage
        .kernel
        .write(rt, stage.alloc, task, file, line.text.bytes)
    {
        Ok(Written::Batch { version: _ }) => None,
        Ok(Written::Entry(_)) => None,
        Ok(Written::Refused { version, fault }) => {
            refuse(stage.alloc, asked, line, (number, seq, version), fault)
        }
        Ok(Written::TrailFull) => Some(Stop::TrailFull),
        Ok(Written::SeqFull) => Some(Stop::SeqFull),
        Err(_) => Some(Stop::Memory),
    }
}

/// Makes an object call that is no fork.
fn make_line<R: Wait, G, S: ScriptLines>(
    rt: &R,
    stage: Stage<'_, G, S>,
    task: &mut Task,
    asked: &mut AskedBlocks,
    line: &Line<'_>,
    call: Call,
) -> Option<Stop>
    requires table { task.old.table ≡ stage.kernel.now.table }
    requires top { task.old.version ≤ length task.old.journal }
    requires act { act_of_line stage.kernel.now.labels stage.names.now (call_seen line.now) ≡ Some (Act.Make call) }
    ensures ran { (ls : List ScriptLine) → Ran (is_some result) (stage_script S.told stage.entry) (call_seen line.now ∷ ls) ls task.old task.new asked.old asked.new }
    ensures cause { (ls : List ScriptLine) → IfSome result (IsCause (stage_script S.told stage.entry) (call_seen line.now ∷ ls) task.old task.new) }
{
    match stage.kernel.call(rt, stage.alloc, task, call) {
        Ok(Called::Entry(_)) => None,
        Ok(Called::TrailFull(_)) => Some(Stop::TrailFull),
        Ok(Called::SeqFull(_)) => Some(Stop::SeqFull),
        Err(_) => Some(Stop::Memory),
    }
}

/// Runs a line that neither makes a task nor waits for one.
pub fn plain_line<R: Wait, G, S: ScriptLines>(
    rt: &R,
    stage: Stage<'_, G, S>,
    task: &mut Task,
    asked: &mut AskedBlocks,
    line: &Line<'_>,
    act: Act,
) -> Option<Stop>
    requires table { task.old.table ≡ stage.kernel.now.table }
    requires top { task.old.version ≤ length task.old.journal }
    requires act { act_of_line stage.kernel.now.labels stage.names.now (call_seen line.now) ≡ Some act }
    requires plain { (pid : Pid) → act ≡ Act.Fork pid → ⊥ }
    ensures ran { (ls : List ScriptLine) → Ran (is_some result) (stage_script S.told stage.entry) (call_seen line.now ∷ ls) ls task.old task.new asked.old asked.new }
    ensures cause { (ls : List ScriptLine) → IfSome result (IsCause (stage_script S.told stage.entry) (call_seen line.now ∷ ls) task.old task.new) }
{
    match act {
        Act::Write => write_line(rt, stage, task, asked, line),
        Act::Ask { s, o, m } => ask_line(stage, task, asked, line, (s, o, m)),
        Act::Make(call) => make_line(rt, stage, task, asked, line, call),
        Act::Wait(_) => Some(Stop::Unscripted),
        Act::Fork(_) => Some(Stop::Unscripted),
    }
}
