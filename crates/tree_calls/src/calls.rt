ghost use Rattle.std.specs.Prelude.{◌≡◌, ◌++◌, is_none, None, IfOk, OnOk, ℕ, OnErr};
ghost use Rattle.rule_fold.specs.Index.{ruling_of};
ghost use Rattle.world_spec.specs.Worlds.{label_of as label_of_name, creds_of};
ghost use Rattle.world_spec.specs.TreeCalls.{walk_to_last, first_name as first_of, label_at as label_at_of, tree_asks, tree_left};
ghost use Rattle.world_spec.specs.Steps.{went, verdict_of};
ghost use Rattle.world_state.specs.Seen.{world_seen};
ghost use Rattle.world_state.specs.Judging.{went_in, Passes};
ghost use Rattle.tree_calls.specs.Callers.{tree_asks_of};
ghost use Rattle.rules_spec.specs.Rulings.{Ruling};

use crate::names::names_from;
use rule_fold::RuleIndex;
use rules_spec::{EXECUTE, READ, READ_WRITE};
use smack_base::{Bytes, LabelId, Path};
use std::alloc::{AllocError, Global};
use world_spec::{Answer, FileRow, Part, TreeCall, Why};
use world_state::{Caller, Judgement, ROOT, State, asks_for, judge_parts};

/// The most nodes of the tree, the root included.
const MOST_NODES: u32 = 65_536;

/// The call is refused, for there is nothing of the name.
const NO_NAME: Part = Part::Refuses {
    holds: true,
    why: Why::NoSuchName,
};

/// The first name of a path; `/` has none, and no bytes stand for it.
fn first_name(names: &[Bytes]) -> &[u8]
    ensures { result.now ≡ first_of names.now }
{
    match names {
        [] => &[],
        [name, ..] => name.items(),
    }
}

/// The label of the node that the first name of a path leads to, where there is one.
fn label_at(state: &State, names: &[Bytes]) -> Option<LabelId>
    ensures { result ≡ label_at_of (world_seen state.now) names.now }
{
    match names {
        [] => Some(ROOT),
        [name, ..] => state.files.label_of(name.items()),
    }
}

fn is_missing(state: &State, name: &[u8]) -> bool
    ensures { result ≡ is_none (label_of_name state.now.files name.now) }
{
    state.files.label_of(name).is_none()
}

/// Adds the walk to the directory that has the last name of a path.
fn put_walk_to_last(
    parts: &mut Vec<Part>,
    caller: &Caller<'_>,
    names: &[Bytes],
) -> Result<(), AllocError>
    ensures { OnOk result (parts.new.items ≡ parts.old.items
        ++ walk_to_last (world_seen caller.now.state.now) caller.now.task caller.now.cred.now names.now) }
{
    match names {
        [] => Ok(()),
        [_] => parts.extend_from_slice(&[asks_for(caller, EXECUTE, ROOT)]),
        [first, _, ..] => parts.extend_from_slice(&[
            asks_for(caller, EXECUTE, ROOT),
            Part::Refuses {
                holds: is_missing(caller.state, first.items()),
                why: Why::NoSuchName,
            },
            Part::Refuses {
                holds: true,
                why: Why::NotDirectory,
            },
        ]),
    }
}

fn create_parts(alloc: Global, caller: &Caller<'_>, path: &Path) -> Result<Vec<Part>, AllocError>
    ensures { IfOk result (λ parts. parts.items ≡ tree_asks_of caller.now (TreeCall.Create path.now)) }
{
    let names = path.names();
    let mut parts = Vec::from_slice(
        alloc,
        &[Part::Refuses {
            holds: names.is_empty(),
            why: Why::IsRoot,
        }],
    )?;
    put_walk_to_last(&mut parts, caller, names)?;
    parts.extend_from_slice(&[
        asks_for(caller, READ_WRITE, ROOT),
        Part::Refuses {
            holds: !is_missing(caller.state, first_name(names)),
            why: Why::Exists,
        },
        Part::Refuses {
            holds: caller.state.files.len() + 1 >= MOST_NODES,
            why: Why::TreeFull { limit: MOST_NODES },
        },
    ])?;
    Ok(parts)
}

fn unlink_parts(alloc: Global, caller: &Caller<'_>, path: &Path) -> Result<Vec<Part>, AllocError>
    ensures { IfOk result (λ parts. parts.items ≡ tree_asks_of caller.now (TreeCall.Unlink path.now)) }
{
    let names = path.names();
    let mut parts = Vec::from_slice(
        alloc,
        &[Part::Refuses {
            holds: names.is_empty(),
            why: Why::IsRoot,
        }],
    )?;
    put_walk_to_last(&mut parts, caller, names)?;
    let Some(l) = label_at(caller.state, names) else {
        parts.push(NO_NAME)?;
        return Ok(parts);
    };
    parts.extend_from_slice(&[
        asks_for(caller, READ_WRITE, ROOT),
        asks_for(caller, READ_WRITE, l),
    ])?;
    Ok(parts)
}

fn list_parts(alloc: Global, caller: &Caller<'_>, path: &Path) -> Result<Vec<Part>, AllocError>
    ensures { IfOk result (λ parts. parts.items ≡ tree_asks_of caller.now (TreeCall.ListDir path.now 0)) }
{
    let names = path.names();
    let mut parts = Vec::new(alloc);
    put_walk_to_last(&mut parts, caller, names)?;
    let Some(l) = label_at(caller.state, names) else {
        parts.push(NO_NAME)?;
        return Ok(parts);
    };
    parts.extend_from_slice(&[
        asks_for(caller, READ, l),
        Part::Refuses {
            holds: !names.is_empty(),
            why: Why::NotDirectory,
        },
    ])?;
    Ok(parts)
}

/// What a call on the tree comes to before its effect.
pub fn tree_judgement(
    alloc: Global,
    caller: &Caller<'_>,
    call: &TreeCall,
) -> Result<Judgement, AllocError>
    ensures went { IfOk result (λ j. went_in j ≡ went (verdict_of (world_seen caller.now.state.now) (ruling_of caller.now.rules.now)) (tree_asks_of caller.now call.now)) }
    ensures passes { IfOk result (λ j. j.stop ≡ None → Passes (tree_asks_of caller.now call.now)) }
{
    let parts = match call {
        TreeCall::Create { path } => create_parts(alloc, caller, path)?,
        TreeCall::Unlink { path } => unlink_parts(alloc, caller, path)?,
        TreeCall::ListDir { path, at: _ } => list_parts(alloc, caller, path)?,
    };
    judge_parts(alloc, caller.state, caller.rules, parts.as_slice())
}

/// The answer to a call on the tree that goes through, whichever task makes it.
pub fn tree_answer(alloc: Global, state: &State, call: &TreeCall) -> Result<Answer, AllocError>
    ensures { IfOk result (λ answer. (version : Ruling) (task : ℕ) → answer ≡ (tree_left (world_seen state.now) version task call.now).answer) }
{
    match call {
        TreeCall::Create { path: _ } => Ok(Answer::Ok),
        TreeCall::Unlink { path: _ } => Ok(Answer::Ok),
        TreeCall::ListDir { path: _, at } => Ok(Answer::Names {
            count: state.files.len(),
            names: names_from(alloc, state.files.rows(), *at)?,
        }),
    }
}

/// An empty file with its creator's label.
fn new_file(alloc: Global, state: &State, task: u16, path: &Path) -> Result<FileRow, AllocError>
    ensures { IfOk result (λ file. file ≡ record { name = first_of path.now; label = (creds_of (world_seen state.now) task).label }) }
{
    Ok(FileRow {
        name: Bytes::from_slice(alloc, first_name(path.names()))?,
        label: state.label_of(task),
    })
}

/// Puts a call on the tree into effect, where nothing refuses it; on want of memory nothing changes.
#[tactic(auto, using(crate::proofs::Rooms::room_of_create))]
pub fn tree_effect(
    alloc: Global,
    state: &mut State,
    rules: &RuleIndex,
    task: u16,
    call: &TreeCall,
) -> Result<(), AllocError>
    requires { Passes (tree_asks (world_seen state.old) (ruling_of rules.now) task (creds_of (world_seen state.old) task) call.now) }
    ensures ok { OnOk result (world_seen state.new ≡ record (world_seen state.old) { files = (tree_left (world_seen state.old) (ruling_of rules.now) task call.now).files }) }
    ensures err { OnErr result (world_seen state.new ≡ world_seen state.old) }
{
    match call {
        TreeCall::Create { path } => {
            let file = new_file(alloc, state, task, path)?;
            state.files.put(file)
        }
        TreeCall::Unlink { path } => {
            state.files.take(first_name(path.names()));
            Ok(())
        }
        TreeCall::ListDir { path: _, at: _ } => Ok(()),
    }
}
