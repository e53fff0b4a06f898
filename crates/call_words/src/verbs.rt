ghost use Rattle.std.specs.Prelude.{◌≡◌, ◌≤◌, ◌∷◌, ◌++◌, ◌^◌, length, map, IfOk, OnOk};
ghost use Rattle.log_spec.specs.Shown.{Plain};
ghost use Rattle.rule_text.specs.Parts.{placed};
ghost use Rattle.verb_spec.specs.Verbs.{plain_verb_of as plain_verb_of_name, call_verb_of as call_verb_of_name, verb_of as verb_of_name, kinds_of as kinds_of_verb, call_kinds as kinds_of_call_verb, is_unbuilt_verb as is_unbuilt_name, call_from as call_from_values, made_call as made_call_of, call_verb as verb_of_call, call_words as words_of_call};
ghost use Rattle.call_words.specs.Spelling.{words_by};

use crate::printing::put_word;
use crate::spelling::Spelling;
use crate::tasks::{
    UNBUILT_TASK_VERBS, put_task_values, task_call_from, task_kinds, task_verb_of, task_verb_text,
};
use crate::trees::{
    UNBUILT_TREE_VERBS, put_tree_values, tree_call_from, tree_kinds, tree_verb_of, tree_verb_text,
};
use crate::values::values_behind;
use crate::words::is_one_of;
use label_table::Labels;
use rule_text::Part;
use smack_base::Bytes;
use std::alloc::{AllocError, Global};
use verb_spec::{CallVerb, Value, Verb, WordKind};
use world_spec::Call;

/// The verbs of families that scripts do not have yet.
const UNBUILT_FAMILY_VERBS: &[&[u8]] = &[
    b"open",
    b"read",
    b"put",
    b"close",
    b"map",
    b"unmap",
    b"lock",
    b"unlock",
    b"socket",
    b"sockattr",
    b"send",
    b"connect",
    b"say",
    b"recv",
    b"inject",
    b"shut",
    b"msgnew",
    b"msgsnd",
    b"msgrcv",
    b"msgrm",
    b"semnew",
    b"semop",
    b"semget",
    b"semrm",
    b"shmnew",
    b"shmat",
    b"shmread",
    b"shmwrite",
    b"shmdt",
    b"shmrm",
    b"netlabel",
    b"hostof",
    b"sendto",
    b"hostin",
    b"imgnew",
    b"imgdir",
    b"imgfile",
    b"imglabel",
    b"mount",
];

fn plain_verb_of(name: &[u8]) -> Option<Verb>
    ensures { result ≡ plain_verb_of_name name.now }
{
    if name == b"write".as_slice() {
        Some(Verb::Write)
    } else if name == b"ask".as_slice() {
        Some(Verb::Ask)
    } else if name == b"wait".as_slice() {
        Some(Verb::Wait)
    } else if name == b"fork".as_slice() {
        Some(Verb::Fork)
    } else if name == b"exit".as_slice() {
        Some(Verb::Exit)
    } else {
        None
    }
}

fn call_verb_of(name: &[u8]) -> Option<CallVerb>
    ensures { result ≡ call_verb_of_name name.now }
{
    if let Some(verb) = task_verb_of(name) {
        return Some(CallVerb::Task(verb));
    }
    if let Some(verb) = tree_verb_of(name) {
        return Some(CallVerb::Tree(verb));
    }
    None
}

/// The verb with this name; None where there is none.
pub fn verb_of(name: &[u8]) -> Option<Verb>
    ensures { result ≡ verb_of_name name.now }
{
    if let Some(verb) = plain_verb_of(name) {
        return Some(verb);
    }
    if let Some(verb) = call_verb_of(name) {
        return Some(Verb::Call(verb));
    }
    None
}

/// Whether a verb is one that scripts do not have yet.
pub fn is_unbuilt_verb(name: &[u8]) -> bool
    ensures { result ≡ is_unbuilt_name name.now }
{
    is_one_of(UNBUILT_TASK_VERBS, name)
        || is_one_of(UNBUILT_TREE_VERBS, name)
        || is_one_of(UNBUILT_FAMILY_VERBS, name)
}

/// The kinds of the words behind the verb of an object call.
pub fn call_kinds(verb: CallVerb, words: &[Part<'_>]) -> &'static [WordKind]
    ensures kinds { result.now ≡ kinds_of_call_verb verb (map placed words.now) }
    ensures few { length result.now ≤ 3 }
{
    match verb {
        CallVerb::Task(verb) => task_kinds(verb, words),
        CallVerb::Tree(verb) => tree_kinds(verb, words),
    }
}

/// The kinds of the words behind a verb.
pub fn kinds_of(verb: Verb, words: &[Part<'_>]) -> &'static [WordKind]
    ensures kinds { result.now ≡ kinds_of_verb verb (map placed words.now) }
    ensures few { length result.now ≤ 3 }
{
    match verb {
        Verb::Write => &[WordKind::File, WordKind::Lines],
        Verb::Ask => &[WordKind::Label, WordKind::Label, WordKind::Modes],
        Verb::Wait => &[WordKind::Child],
        Verb::Fork => &[WordKind::NewTask],
        Verb::Exit => &[],
        Verb::Call(verb) => call_kinds(verb, words),
    }
}

fn call_from(verb: CallVerb, values: &[Value]) -> Result<Option<Call>, AllocError>
    ensures { IfOk result (λ call. call ≡ call_from_values verb values.now) }
{
    match verb {
        CallVerb::Task(verb) => match task_call_from(verb, values) {
            Some(call) => Ok(Some(Call::Task(call))),
            None => Ok(None),
        },
        CallVerb::Tree(verb) => match tree_call_from(verb, values)? {
            Some(call) => Ok(Some(Call::Tree(call))),
            None => Ok(None),
        },
    }
}

/// The object call that a verb with these words makes, by the labels and the names of the tasks;
/// None where one of them is not of its kind, or not known.
pub fn made_call(
    alloc: Global,
    labels: &Labels,
    names: &[Bytes],
    verb: CallVerb,
    words: &[Part<'_>],
) -> Result<Option<Call>, AllocError>
    requires { length names.now ≤ 2 ^ 16 }
    ensures { IfOk result (λ call. call ≡ made_call_of labels.now names.now verb (map placed words.now)) }
{
    match values_behind(alloc, labels, names, call_kinds(verb, words), words)? {
        Some(values) => call_from(verb, values.as_slice()),
        None => Ok(None),
    }
}

/// The name of the verb of a call.
pub fn call_verb(call: &Call) -> &'static [u8]
    ensures { result.now ≡ verb_of_call call.now }
{
    match call {
        Call::Task(call) => task_verb_text(call),
        Call::Tree(call) => tree_verb_text(call),
    }
}

/// The words of a call, its verb first.
pub fn put_call(out: &mut Vec<u8>, by: &Spelling, call: &Call) -> Result<(), AllocError>
    ensures { OnOk result (out.new.items ≡ out.old.items ++ words_by by.now (Plain (verb_of_call call.now) ∷ words_of_call call.now)) }
{
    put_word(out, call_verb(call))?;
    match call {
        Call::Task(call) => put_task_values(out, by, call),
        Call::Tree(call) => put_tree_values(out, by, call),
    }
}
