ghost use Rattle.std.specs.Prelude.{◌≡◌, ◌<◌, None, false, length, is_some, IfOk, OnOk, OnErr, MatchOption};
ghost use Rattle.rule_fold.specs.Index.{ruling_of};
ghost use Rattle.rules_spec.specs.Rulings.{Ruling};
ghost use Rattle.world_spec.specs.Worlds.{creds_of};
ghost use Rattle.world_spec.specs.Steps.{call_asks, asks, went, verdict_of, effect as effect_of, step};
ghost use Rattle.world_state.specs.Seen.{world_seen};
ghost use Rattle.world_state.specs.Judging.{went_in, Passes};
ghost use Rattle.smack_world.specs.Renewing.{task_renews as task_renews_by, renews as renews_by};
ghost use Rattle.smack_world.specs.Stepping.{HandsOut};

use rule_fold::RuleIndex;
use rules_spec::Checks;
use smack_base::Duplicate;
use std::alloc::{AllocError, Global};
use task_calls::{task_effect, task_judgement, task_reply};
use task_creds::{Cred, CredRoom};
use tree_calls::{tree_answer, tree_effect, tree_judgement};
use world_spec::{Call, Reply, TaskCall, Why};
use world_state::{Caller, Judgement, State};

/// What a caller is told of a call: the verdicts that were asked, and the reply.
#[derive(Drop)]
pub(crate) struct Told {
    pub(crate) checks: Checks,
    pub(crate) reply: Reply,
}

impl Duplicate for Told {
    fn copy(&self) -> Result<Told, AllocError> {
        let checks = self.checks.copy()?;
        let reply = self.reply.copy()?;
        Ok(Told { checks, reply })
    }
}

/// What came of a call: what its caller is told, a copy of that for the trail, and the credentials
/// that the caller has after it, where the call may have renewed them.
#[derive(Drop)]
pub(crate) struct Acted {
    pub(crate) told: Told,
    pub(crate) kept: Told,
    pub(crate) creds: Option<Cred>,
}

/// What the call of a live task comes to before its effect.
fn judge_call(alloc: Global, caller: &Caller<'_>, call: &Call) -> Result<Judgement, AllocError>
    ensures went { IfOk result (λ j. went_in j ≡ went (verdict_of (world_seen caller.now.state.now) (ruling_of caller.now.rules.now))
        (call_asks (world_seen caller.now.state.now) (ruling_of caller.now.rules.now) caller.now.task caller.now.cred.now call.now)) }
    ensures passes { IfOk result (λ j. j.stop ≡ None
        → Passes (call_asks (world_seen caller.now.state.now) (ruling_of caller.now.rules.now) caller.now.task caller.now.cred.now call.now)) }
{
    match call {
        Call::Task(call) => task_judgement(alloc, caller, call),
        Call::Tree(call) => tree_judgement(alloc, caller, call),
    }
}

/// What a call comes to before its effect.
#[tactic(auto, using(crate::proofs::Callers::of_nobody, crate::proofs::Callers::of_live))]
fn judge(
    alloc: Global,
    state: &State,
    rules: &RuleIndex,
    task: u16,
    call: &Call,
) -> Result<Judgement, AllocError>
    ensures went { IfOk result (λ j. went_in j ≡ went (verdict_of (world_seen state.now) (ruling_of rules.now)) (asks (world_seen state.now) (ruling_of rules.now) task call.now)) }
    ensures made { IfOk result (λ j. j.stop ≡ None → task < length state.now.tasks) }
    ensures passes { IfOk result (λ j. j.stop ≡ None → Passes (call_asks (world_seen state.now) (ruling_of rules.now) task (creds_of (world_seen state.now) task) call.now)) }
{
    match state.tasks.live_cred(task) {
        Some(cred) => {
            let caller = Caller {
                state,
                rules,
                task,
                cred,
            };
            judge_call(alloc, &caller, call)
        }
        None => Ok(Judgement {
            checks: Checks::new(alloc),
            stop: Some(Reply::Refused(Why::NoSuchTask)),
        }),
    }
}

/// The reply to a call that goes through.
fn reply_of(alloc: Global, state: &State, task: u16, call: &Call) -> Result<Reply, AllocError>
    ensures { IfOk result (λ reply. (version : Ruling) → reply ≡ (effect_of (world_seen state.now) version task call.now).reply) }
{
    match call {
        Call::Task(call) => Ok(task_reply(state, task, call)),
        Call::Tree(call) => Ok(tree_answer(alloc, state, call)?.reply()),
    }
}

/// Puts a call into effect; on want of memory nothing changes.
fn effect(
    alloc: Global,
    state: &mut State,
    rules: &RuleIndex,
    task: u16,
    call: &Call,
) -> Result<(), AllocError>
    requires made { task < length state.old.tasks }
    requires passes { Passes (call_asks (world_seen state.old) (ruling_of rules.now) task (creds_of (world_seen state.old) task) call.now) }
    ensures ok { OnOk result (world_seen state.new ≡ (effect_of (world_seen state.old) (ruling_of rules.now) task call.now).world) }
    ensures err { OnErr result (world_seen state.new ≡ world_seen state.old) }
{
    match call {
        Call::Task(call) => task_effect(state, rules, task, call),
        Call::Tree(call) => tree_effect(alloc, state, rules, task, call),
    }
}

/// Whether a call on tasks may leave its caller with other credentials.
fn task_renews(call: &TaskCall) -> bool
    ensures { result ≡ task_renews_by call.now }
{
    match call {
        TaskCall::Relabel { l: _ } => true,
        TaskCall::DropCap { cap: _ } => true,
        TaskCall::SelfRules { rules: _ } => true,
        TaskCall::Relabels { labels: _ } => true,
        _ => false,
    }
}

/// Whether a call may leave its caller with other credentials.
fn renews(call: &Call) -> bool
    ensures { result ≡ renews_by call.now }
{
    match call {
        Call::Task(call) => task_renews(call),
        Call::Tree(_) => false,
    }
}

/// Finds the memory for the credentials that a call may leave its caller with.
fn find_room(alloc: Global, call: &Call) -> Result<Option<CredRoom>, AllocError>
    ensures { IfOk result (λ room. is_some room ≡ renews_by call.now) }
{
    if renews(call) {
        let room = CredRoom::new(alloc)?;
        Ok(Some(room))
    } else {
        Ok(None)
    }
}

/// The credentials of a task, where there is room for them.
fn hand_out(state: &State, task: u16, room: Option<CredRoom>) -> Option<Cred>
    requires { task < length state.now.tasks }
    ensures { MatchOption result (is_some room ≡ false) (λ cred. cred ≡ creds_of (world_seen state.now) task) }
{
    match (room, state.tasks.cred(task)) {
        (Some(room), Some(cred)) => Some(cred.copy_into(room)),
        _ => None,
    }
}

/// What comes of a call that goes through. All memory is found before the effect, which comes last.
fn go_through(
    alloc: Global,
    state: &mut State,
    rules: &RuleIndex,
    task: u16,
    call: &Call,
    checks: Checks,
) -> Result<Acted, AllocError>
    requires made { task < length state.old.tasks }
    requires passes { Passes (call_asks (world_seen state.old) (ruling_of rules.now) task (creds_of (world_seen state.old) task) call.now) }
    ensures world { OnOk result (world_seen state.new ≡ (effect_of (world_seen state.old) (ruling_of rules.now) task call.now).world) }
    ensures told { IfOk result (λ acted. acted.told ≡ record { checks = checks; reply = (effect_of (world_seen state.old) (ruling_of rules.now) task call.now).reply }) }
    ensures kept { IfOk result (λ acted. acted.kept ≡ acted.told) }
    ensures creds { IfOk result (λ acted. HandsOut (world_seen state.old) (world_seen state.new) task acted.creds) }
    ensures err { OnErr result (world_seen state.new ≡ world_seen state.old) }
{
    let room = find_room(alloc, call)?;
    let reply = reply_of(alloc, state, task, call)?;
    let told = Told { checks, reply };
    let kept = told.copy()?;
    effect(alloc, state, rules, task, call)?;
    let creds = hand_out(state, task, room);
    Ok(Acted { told, kept, creds })
}

/// Takes a call of a task. On want of memory nothing changes.
pub(crate) fn act(
    alloc: Global,
    state: &mut State,
    rules: &RuleIndex,
    task: u16,
    call: &Call,
) -> Result<Acted, AllocError>
    ensures world { OnOk result (world_seen state.new ≡ (step (world_seen state.old) (ruling_of rules.now) task call.now).world) }
    ensures checks { IfOk result (λ acted. acted.told.checks ≡ (step (world_seen state.old) (ruling_of rules.now) task call.now).checks) }
    ensures reply { IfOk result (λ acted. acted.told.reply ≡ (step (world_seen state.old) (ruling_of rules.now) task call.now).reply) }
    ensures kept { IfOk result (λ acted. acted.kept ≡ acted.told) }
    ensures creds { IfOk result (λ acted. HandsOut (world_seen state.old) (world_seen state.new) task acted.creds) }
    ensures err { OnErr result (world_seen state.new ≡ world_seen state.old) }
{
    let Judgement { checks, stop } = judge(alloc, state, rules, task, call)?;
    match stop {
        None => go_through(alloc, state, rules, task, call, checks),
        Some(reply) => {
            let told = Told { checks, reply };
            let kept = told.copy()?;
            Ok(Acted {
                told,
                kept,
                creds: None,
            })
        }
    }
}
