ghost use Rattle.std.specs.Prelude.{◌≡◌, ◌≤◌, [], ◌∷◌, ◌++◌, Some, length, map, OnOk};
ghost use Rattle.std.specs.List.{flat_map};
ghost use Rattle.rule_text.specs.Parts.{placed};
ghost use Rattle.verb_spec.specs.Values.{value_shown};
ghost use Rattle.verb_spec.specs.TaskVerbs.{task_verb_of as task_verb_of_name, task_kinds as kinds_of_task_verb, task_call_from as task_call_from_values, task_spoken, rule_values};
ghost use Rattle.call_words.specs.Spelling.{words_by};

use crate::printing::{cap_text, put_label, put_name, put_number, put_triple, put_word};
use crate::spelling::Spelling;
use rule_text::Part;
use smack_base::{LabelId, Pair, Pid};
use std::alloc::AllocError;
use verb_spec::{Value, WordKind};
use world_spec::{TaskCall, TaskVerb, TraceWay};

/// The verbs of calls on tasks that scripts do not have yet.
pub const UNBUILT_TASK_VERBS: &[&[u8]] = &[b"exec"];

/// The verb of a call on tasks with this name; None where there is none.
pub fn task_verb_of(name: &[u8]) -> Option<TaskVerb>
    ensures { result ≡ task_verb_of_name name.now }
{
    if name == b"relabel".as_slice() {
        Some(TaskVerb::Relabel)
    } else if name == b"drop".as_slice() {
        Some(TaskVerb::Drop)
    } else if name == b"kill".as_slice() {
        Some(TaskVerb::Kill)
    } else if name == b"take".as_slice() {
        Some(TaskVerb::Take)
    } else if name == b"trace".as_slice() {
        Some(TaskVerb::Trace)
    } else {
        None
    }
}

/// The kinds of the words behind a verb of a call on tasks; a kind may be by the words themselves.
pub fn task_kinds(verb: TaskVerb, _words: &[Part<'_>]) -> &'static [WordKind]
    ensures kinds { result.now ≡ kinds_of_task_verb verb (map placed _words.now) }
    ensures few { length result.now ≤ 3 }
{
    match verb {
        TaskVerb::Relabel => &[WordKind::Label],
        TaskVerb::Drop => &[WordKind::Capability],
        TaskVerb::Kill => &[WordKind::KnownTask, WordKind::Signal],
        TaskVerb::Take => &[],
        TaskVerb::Trace => &[WordKind::TraceWay, WordKind::KnownTask],
    }
}

fn traced(way: TraceWay, pid: Pid) -> TaskCall
    ensures { Some result ≡ task_call_from_values TaskVerb.Trace (Value.TraceWay way ∷ Value.Task pid ∷ []) }
{
    match way {
        TraceWay::Read => TaskCall::TraceRead { pid },
        TraceWay::Attach => TaskCall::TraceAttach { pid },
    }
}

/// The call on tasks that a verb with these values makes; None where they are not those of the verb.
pub fn task_call_from(verb: TaskVerb, values: &[Value]) -> Option<TaskCall>
    ensures { result ≡ task_call_from_values verb values.now }
{
    match (verb, values) {
        (TaskVerb::Relabel, [Value::Label(l)]) => Some(TaskCall::Relabel { l: *l }),
        (TaskVerb::Drop, [Value::Capability(cap)]) => Some(TaskCall::DropCap { cap: *cap }),
        (TaskVerb::Kill, [Value::Task(pid), Value::Signal(sig)]) => Some(TaskCall::Kill {
            pid: *pid,
            sig: *sig,
        }),
        (TaskVerb::Take, []) => Some(TaskCall::Take),
        (TaskVerb::Trace, [Value::TraceWay(way), Value::Task(pid)]) => Some(traced(*way, *pid)),
        _ => None,
    }
}

/// The name of the verb of a call on tasks.
pub fn task_verb_text(call: &TaskCall) -> &'static [u8]
    ensures { result.now ≡ (task_spoken call.now).name }
{
    match call {
        TaskCall::Fork { pid: _ } => b"fork",
        TaskCall::Exit => b"exit",
        TaskCall::Relabel { l: _ } => b"relabel",
        TaskCall::DropCap { cap: _ } => b"drop",
        TaskCall::SelfRules { rules: _ } => b"self",
        TaskCall::Relabels { labels: _ } => b"relabels",
        TaskCall::Kill { pid: _, sig: _ } => b"kill",
        TaskCall::Take => b"take",
        TaskCall::TraceRead { pid: _ } => b"trace",
        TaskCall::TraceAttach { pid: _ } => b"trace",
    }
}

/// Self rules, three words each.
fn put_rules(out: &mut Vec<u8>, by: &Spelling, rules: &[Pair]) -> Result<(), AllocError>
    ensures { OnOk result (out.new.items ≡ out.old.items ++ words_by by.now (map value_shown (flat_map rule_values rules.now))) }
{
    for rule in rules {
        put_triple(out, by, rule.s, rule.o, rule.m)?;
    }
    Ok(())
}

fn put_labels(out: &mut Vec<u8>, by: &Spelling, list: &[LabelId]) -> Result<(), AllocError>
    ensures { OnOk result (out.new.items ≡ out.old.items ++ words_by by.now (map value_shown (map (λ l. Value.Label l) list.now))) }
{
    for l in list {
        put_label(out, by, *l)?;
    }
    Ok(())
}

/// The words of a call on tasks behind its verb.
pub fn put_task_values(out: &mut Vec<u8>, by: &Spelling, call: &TaskCall) -> Result<(), AllocError>
    ensures { OnOk result (out.new.items ≡ out.old.items ++ words_by by.now (map value_shown (task_spoken call.now).values)) }
{
    match call {
        TaskCall::Fork { pid } => put_name(out, by, *pid),
        TaskCall::Exit => Ok(()),
        TaskCall::Relabel { l } => put_label(out, by, *l),
        TaskCall::DropCap { cap } => put_word(out, cap_text(*cap)),
        TaskCall::SelfRules { rules } => {
            put_number(out, rules.items().len() as u64)?;
            put_rules(out, by, rules.items())
        }
        TaskCall::Relabels { labels: list } => {
            put_number(out, list.items().len() as u64)?;
            put_labels(out, by, list.items())
        }
        TaskCall::Kill { pid, sig } => {
            put_name(out, by, *pid)?;
            put_number(out, u64::from(*sig))
        }
        TaskCall::Take => Ok(()),
        TaskCall::TraceRead { pid } => {
            put_word(out, b"read")?;
            put_name(out, by, *pid)
        }
        TaskCall::TraceAttach { pid } => {
            put_word(out, b"attach")?;
            put_name(out, by, *pid)
        }
    }
}
