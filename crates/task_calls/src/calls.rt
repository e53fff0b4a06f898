ghost use Rattle.std.specs.Prelude.{◌≡◌, ◌∷◌, [], not, None, IfOk, ℕ, ◌<◌, ◌≤◌, true, length, OnOk, OnErr};
ghost use Rattle.rule_fold.specs.Index.{ruling_of};
ghost use Rattle.rules_spec.specs.AskedModes.{write};
ghost use Rattle.world_spec.specs.Signals.{is_signal as is_signal_number, least_signal};
ghost use Rattle.world_spec.specs.Worlds.{creds_of, creds_in, creds_or_first, live_task, pending_of, with_creds};
ghost use Rattle.world_spec.specs.Questions.{asks_for as asks_for_of};
ghost use Rattle.world_spec.specs.TaskCalls.{may_relabel as may_relabel_by, task_asks, relabelled, signal_answer, signalled, tasks_after, task_left};
ghost use Rattle.world_spec.specs.Steps.{went, verdict_of, task_reply as task_reply_of};
ghost use Rattle.world_state.specs.Seen.{world_seen};
ghost use Rattle.world_state.specs.Judging.{went_in, Passes};
ghost use Rattle.task_calls.specs.Callers.{asks_of};
ghost use Rattle.rules_spec.specs.Rulings.{Ruling};
ghost use Rattle.rules_spec.specs.Creds.{with_self_rules, most_self_rules, most_relabels};

use rule_fold::RuleIndex;
use rules_spec::{READ, WRITE};
use signal_box::is_signal;
use smack_base::{Cap, Ids, LabelId, Pairs, Pid};
use smack_decide::effective;
use std::alloc::{AllocError, Global};
use task_creds::Cred;
use task_table::Tasks;
use world_spec::{Answer, Part, Question, Reply, TaskCall, Why};
use world_state::{Caller, Judgement, State, asks_for, judge_parts};

/// The most tasks that are ever made, the first included.
const MOST_TASKS: u32 = 64;

/// The most self rules of a task.
const MOST_SELF_RULES: u32 = 256;

/// The most labels of a relabel list.
const MOST_RELABELS: u32 = 256;

/// The call is refused, for there is no task to act on.
const NO_TASK: Part = Part::Refuses {
    holds: true,
    why: Why::NoSuchTask,
};

fn fork_parts(caller: &Caller<'_>, pid: Pid) -> [Part; 2]
    ensures { result ≡ asks_of caller.now (TaskCall.Fork pid) }
{
    [
        Part::Refuses {
            holds: caller.state.tasks.knows(pid),
            why: Why::Exists,
        },
        Part::Refuses {
            holds: caller.state.tasks.made() >= MOST_TASKS as u16,
            why: Why::TasksFull { limit: MOST_TASKS },
        },
    ]
}

/// Whether a task may take a label: by CAP_MAC_ADMIN or by its relabel list.
fn may_relabel(cred: &Cred, rules: &RuleIndex, l: LabelId) -> bool
    ensures { result ≡ may_relabel_by cred.now (ruling_of rules.now) l }
{
    effective(cred, Cap::MacAdmin, rules) || cred.listed(l)
}

fn relabel_parts(caller: &Caller<'_>, l: LabelId) -> [Part; 1]
    ensures { result ≡ asks_of caller.now (TaskCall.Relabel l) }
{
    [Part::Refuses {
        holds: !may_relabel(caller.cred, caller.rules, l),
        why: Why::NotPrivileged,
    }]
}

fn self_rules_parts(caller: &Caller<'_>, rules: &Pairs) -> Result<[Part; 1], AllocError>
    ensures { IfOk result (λ parts. parts ≡ asks_of caller.now (TaskCall.SelfRules rules.now)) }
{
    let full = caller.cred.self_full(rules)?;
    Ok([Part::Refuses {
        holds: full,
        why: Why::SelfFull {
            limit: MOST_SELF_RULES,
        },
    }])
}

fn relabels_parts(caller: &Caller<'_>, labels: &Ids) -> [Part; 2]
    ensures { result ≡ asks_of caller.now (TaskCall.Relabels labels.now) }
{
    [
        Part::Refuses {
            holds: !effective(caller.cred, Cap::MacAdmin, caller.rules),
            why: Why::NotPrivileged,
        },
        Part::Refuses {
            holds: labels.items().len() > MOST_RELABELS as usize,
            why: Why::RelabelFull {
                limit: MOST_RELABELS,
            },
        },
    ]
}

fn kill_parts(caller: &Caller<'_>, target: u16, sig: u8) -> [Part; 2]
    ensures { result ≡ asks_for_of caller.now.task caller.now.cred.now write (creds_of (world_seen caller.now.state.now) target).label
        ∷ Part.Refuses (not (is_signal_number sig)) Why.Range ∷ [] }
{
    [
        asks_for(caller, WRITE, caller.state.label_of(target)),
        Part::Refuses {
            holds: !is_signal(sig),
            why: Why::Range,
        },
    ]
}

/// What a signal to the live task of a pid comes to.
fn judge_kill(
    alloc: Global,
    caller: &Caller<'_>,
    pid: Pid,
    sig: u8,
) -> Result<Judgement, AllocError>
    ensures went { IfOk result (λ j. went_in j ≡ went (verdict_of (world_seen caller.now.state.now) (ruling_of caller.now.rules.now)) (asks_of caller.now (TaskCall.Kill pid sig))) }
    ensures passes { IfOk result (λ j. j.stop ≡ None → Passes (asks_of caller.now (TaskCall.Kill pid sig))) }
{
    match caller.state.tasks.of_pid(pid) {
        None => judge_parts(alloc, caller.state, caller.rules, &[NO_TASK]),
        Some(target) => judge_parts(
            alloc,
            caller.state,
            caller.rules,
            &kill_parts(caller, target, sig),
        ),
    }
}

fn take_parts(caller: &Caller<'_>) -> [Part; 1]
    ensures { result ≡ asks_of caller.now TaskCall.Take }
{
    [Part::Refuses {
        holds: least_of(caller.state, caller.task).is_none(),
        why: Why::Again,
    }]
}

/// What reading the live task of a pid comes to.
fn judge_trace_read(alloc: Global, caller: &Caller<'_>, pid: Pid) -> Result<Judgement, AllocError>
    ensures went { IfOk result (λ j. went_in j ≡ went (verdict_of (world_seen caller.now.state.now) (ruling_of caller.now.rules.now)) (asks_of caller.now (TaskCall.TraceRead pid))) }
    ensures passes { IfOk result (λ j. j.stop ≡ None → Passes (asks_of caller.now (TaskCall.TraceRead pid))) }
{
    match caller.state.tasks.of_pid(pid) {
        None => judge_parts(alloc, caller.state, caller.rules, &[NO_TASK]),
        Some(target) => {
            let part = asks_for(caller, READ, caller.state.label_of(target));
            judge_parts(alloc, caller.state, caller.rules, &[part])
        }
    }
}

/// What attaching to the live task of a pid comes to.
fn judge_trace_attach(alloc: Global, caller: &Caller<'_>, pid: Pid) -> Result<Judgement, AllocError>
    ensures went { IfOk result (λ j. went_in j ≡ went (verdict_of (world_seen caller.now.state.now) (ruling_of caller.now.rules.now)) (asks_of caller.now (TaskCall.TraceAttach pid))) }
    ensures passes { IfOk result (λ j. j.stop ≡ None → Passes (asks_of caller.now (TaskCall.TraceAttach pid))) }
{
    match caller.state.tasks.of_pid(pid) {
        None => judge_parts(alloc, caller.state, caller.rules, &[NO_TASK]),
        Some(target) => {
            let part = Part::Asks {
                question: Question::Attach {
                    by: caller.task,
                    o: caller.state.label_of(target),
                },
            };
            judge_parts(alloc, caller.state, caller.rules, &[part])
        }
    }
}

/// What a call on tasks comes to before its effect.
pub fn task_judgement(
    alloc: Global,
    caller: &Caller<'_>,
    call: &TaskCall,
) -> Result<Judgement, AllocError>
    ensures went { IfOk result (λ j. went_in j ≡ went (verdict_of (world_seen caller.now.state.now) (ruling_of caller.now.rules.now)) (asks_of caller.now call.now)) }
    ensures passes { IfOk result (λ j. j.stop ≡ None → Passes (asks_of caller.now call.now)) }
{
    let Caller {
        state,
        rules,
        task: _,
        cred: _,
    } = *caller;
    match call {
        TaskCall::Fork { pid } => judge_parts(alloc, state, rules, &fork_parts(caller, *pid)),
        TaskCall::Exit => judge_parts(alloc, state, rules, &[]),
        TaskCall::Relabel { l } => judge_parts(alloc, state, rules, &relabel_parts(caller, *l)),
        TaskCall::DropCap { cap: _ } => judge_parts(alloc, state, rules, &[]),
        TaskCall::SelfRules { rules: more } => {
            judge_parts(alloc, state, rules, &self_rules_parts(caller, more)?)
        }
        TaskCall::Relabels { labels } => {
            judge_parts(alloc, state, rules, &relabels_parts(caller, labels))
        }
        TaskCall::Kill { pid, sig } => judge_kill(alloc, caller, *pid, *sig),
        TaskCall::Take => judge_parts(alloc, state, rules, &take_parts(caller)),
        TaskCall::TraceRead { pid } => judge_trace_read(alloc, caller, *pid),
        TaskCall::TraceAttach { pid } => judge_trace_attach(alloc, caller, *pid),
    }
}

/// The least signal that waits for a task.
fn least_of(state: &State, task: u16) -> Option<u8>
    ensures { result ≡ least_signal (pending_of (world_seen state.now) task) }
{
    match state.tasks.pending(task) {
        Some(pending) => pending.least(),
        None => None,
    }
}

/// The answer that tells the least signal that waits for a task.
fn take_answer(state: &State, task: u16) -> Answer
    ensures { result ≡ signal_answer (least_signal (pending_of (world_seen state.now) task)) }
{
    match least_of(state, task) {
        Some(sig) => Answer::Signal(sig),
        None => Answer::Ok,
    }
}

/// The reply to a call on tasks that goes through.
pub fn task_reply(state: &State, task: u16, call: &TaskCall) -> Reply
    ensures { (version : Ruling) → let left = task_left (world_seen state.now) version task call.now in
        result ≡ task_reply_of state.now.tasks left.change left.answer }
{
    match call {
        TaskCall::Fork { pid: _ } => Reply::Child(state.tasks.made()),
        TaskCall::Take => take_answer(state, task).reply(),
        _ => Answer::Ok.reply(),
    }
}

/// Takes a label; a task without CAP_MAC_ADMIN takes one once.
fn relabel(cred: &mut Cred, rules: &RuleIndex, l: LabelId)
    ensures { cred.new ≡ relabelled cred.old (ruling_of rules.now) l }
{
    if effective(cred, Cap::MacAdmin, rules) {
        cred.set_label(l);
    } else {
        cred.set_label(l);
        cred.clear_list();
    }
}

/// Adds self rules; on want of memory nothing changes.
#[tactic(auto, using(task_table::proofs::Rows::same_creds))]
fn add_self_rules(tasks: &mut Tasks, task: u16, rules: &Pairs) -> Result<(), AllocError>
    requires made { task < length tasks.old }
    requires room { length (with_self_rules (creds_or_first (creds_in tasks.old task)).self_rules rules.now) ≤ most_self_rules }
    ensures ok { let c = creds_or_first (creds_in tasks.old task) in
        OnOk result (tasks.new ≡ with_creds tasks.old task (record c { self_rules = with_self_rules c.self_rules rules.now })) }
    ensures err { OnErr result (tasks.new ≡ tasks.old) }
{
    tasks.cred_mut(task).put_self(rules)
}

/// Replaces the relabel list; on want of memory nothing changes.
#[tactic(auto, using(task_table::proofs::Rows::same_creds))]
fn replace_relabels(tasks: &mut Tasks, task: u16, labels: &Ids) -> Result<(), AllocError>
    requires made { task < length tasks.old }
    requires room { length labels.now ≤ most_relabels }
    ensures ok { let c = creds_or_first (creds_in tasks.old task) in
        OnOk result (tasks.new ≡ with_creds tasks.old task (record c { relabels = labels.now })) }
    ensures err { OnErr result (tasks.new ≡ tasks.old) }
{
    tasks.cred_mut(task).put_list(labels)
}

/// Sends a signal to the live task of a pid.
fn signal(tasks: &mut Tasks, pid: Pid, sig: u8)
    requires { is_signal_number sig ≡ true }
    ensures { (task : ℕ) → tasks.new ≡ tasks_after tasks.old task (signalled (live_task tasks.old pid) sig) }
{
    if let Some(task) = tasks.of_pid(pid) {
        tasks.pending_mut(task).put(sig);
    }
}

/// Puts a call on tasks into effect, where nothing refuses it; on want of memory nothing changes.
#[tactic(auto, using(crate::proofs::Rooms::room_of_fork, crate::proofs::Rooms::room_of_self_rules, crate::proofs::Rooms::room_of_relabels, crate::proofs::Rooms::range_of_kill))]
pub fn task_effect(
    state: &mut State,
    rules: &RuleIndex,
    task: u16,
    call: &TaskCall,
) -> Result<(), AllocError>
    requires made { task < length state.old.tasks }
    requires passes { Passes (task_asks (world_seen state.old) (ruling_of rules.now) task (creds_of (world_seen state.old) task) call.now) }
    ensures ok { OnOk result (world_seen state.new ≡ record (world_seen state.old) {
      tasks = tasks_after state.old.tasks task (task_left (world_seen state.old) (ruling_of rules.now) task call.now).change;
    }) }
    ensures err { OnErr result (world_seen state.new ≡ world_seen state.old) }
{
    match call {
        TaskCall::Fork { pid } => {
            state.tasks.begin(task, *pid)?;
            Ok(())
        }
        TaskCall::Exit => {
            state.tasks.exit(task);
            Ok(())
        }
        TaskCall::Relabel { l } => {
            relabel(state.tasks.cred_mut(task), rules, *l);
            Ok(())
        }
        TaskCall::DropCap { cap } => {
            state.tasks.cred_mut(task).drop_cap(*cap);
            Ok(())
        }
        TaskCall::SelfRules { rules } => add_self_rules(&mut state.tasks, task, rules),
        TaskCall::Relabels { labels } => replace_relabels(&mut state.tasks, task, labels),
        TaskCall::Kill { pid, sig } => {
            signal(&mut state.tasks, *pid, *sig);
            Ok(())
        }
        TaskCall::Take => {
            let _ = state.tasks.pending_mut(task).take();
            Ok(())
        }
        TaskCall::TraceRead { pid: _ } => Ok(()),
        TaskCall::TraceAttach { pid: _ } => Ok(()),
    }
}
