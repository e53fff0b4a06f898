ghost use Rattle.std.specs.Prelude.{◌≡◌, ◌≤◌, [], Some, length, IfOk};
ghost use Rattle.script_spec.specs.Grammar.{most_script_tasks};
ghost use Rattle.script_text.specs.Lines.{call_seen};
ghost use Rattle.replay_spec.specs.Acts.{act_by, act_of_line};

use call_words::{made_call, modes_in, pid_in, verb_of};
use label_table::Labels;
use replay_spec::Act;
use script_text::Line;
use smack_base::Bytes;
use std::alloc::{AllocError, Global};
use verb_spec::Verb;
use world_spec::{Call, TaskCall};

/// The question that the words of a line are.
fn ask_act(labels: &Labels, line: &Line<'_>) -> Option<Act>
    ensures { result ≡ act_by labels.now [] (call_seen line.now) (Some Verb.Ask) }
{
    let Some(s) = labels.id(line.word(1)) else {
        return None;
    };
    let Some(o) = labels.id(line.word(2)) else {
        return None;
    };
    match modes_in(line.word(3)) {
        Some(m) => Some(Act::Ask { s, o, m }),
        None => None,
    }
}

fn wait_act(names: &[Bytes], line: &Line<'_>) -> Option<Act>
    requires { length names.now ≤ most_script_tasks }
    ensures { result ≡ act_by [] names.now (call_seen line.now) (Some Verb.Wait) }
{
    match pid_in(names, line.word(1)) {
        Some(pid) => Some(Act::Wait(pid)),
        None => None,
    }
}

fn fork_act(names: &[Bytes], line: &Line<'_>) -> Option<Act>
    requires { length names.now ≤ most_script_tasks }
    ensures { result ≡ act_by [] names.now (call_seen line.now) (Some Verb.Fork) }
{
    match pid_in(names, line.word(1)) {
        Some(pid) => Some(Act::Fork(pid)),
        None => None,
    }
}

/// What a line does, by the labels and the names of the tasks; None where it has no verb, or words
/// that are not of their kinds or not known, which is so in no script.
pub fn act_of(
    alloc: Global,
    labels: &Labels,
    names: &[Bytes],
    line: &Line<'_>,
) -> Result<Option<Act>, AllocError>
    requires { length names.now ≤ most_script_tasks }
    ensures { IfOk result (λ act. act ≡ act_of_line labels.now names.now (call_seen line.now)) }
{
    match verb_of(line.verb.bytes) {
        Some(Verb::Write) => Ok(Some(Act::Write)),
        Some(Verb::Ask) => Ok(ask_act(labels, line)),
        Some(Verb::Wait) => Ok(wait_act(names, line)),
        Some(Verb::Fork) => Ok(fork_act(names, line)),
        Some(Verb::Exit) => Ok(Some(Act::Make(Call::Task(TaskCall::Exit)))),
        Some(Verb::Call(verb)) => match made_call(alloc, labels, names, verb, line.behind())? {
            Some(call) => Ok(Some(Act::Make(call))),
            None => Ok(None),
        },
        None => Ok(None),
    }
}
