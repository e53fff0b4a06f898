ghost use Rattle.std.specs.Prelude.{◌≡◌, ◌∷◌, List, None, IfOk};
ghost use Rattle.rule_fold.specs.Index.{ruling_of};
ghost use Rattle.world_spec.specs.declared.Part.{Part as PartOf};
ghost use Rattle.rules_spec.specs.Creds.{creds_first};
ghost use Rattle.world_spec.specs.Worlds.{creds_of};
ghost use Rattle.world_spec.specs.Questions.{asks_for as asks_for_of};
ghost use Rattle.world_spec.specs.Steps.{went, verdict_of};
ghost use Rattle.world_state.specs.Seen.{world_seen};
ghost use Rattle.world_state.specs.Judging.{went_in, behind_checks, ended_by, Passes};

use crate::caller::Caller;
use crate::state::State;
use rule_fold::RuleIndex;
use rules_spec::{Checks, Verdict};
use smack_base::{LabelId, Modes};
use smack_decide::{decide, decide_attach};
use std::alloc::{AllocError, Global};
use task_creds::Cred;
use world_spec::{Part, Question, Reply};

/// What the parts of a call came to: the verdicts that were asked, and the reply where one of the
/// parts ends the call.
#[derive(Drop)]
pub struct Judgement {
    pub checks: Checks,
    pub stop: Option<Reply>,
}

/// The part by which the caller asks, with its own label, for modes on an object.
pub fn asks_for(caller: &Caller<'_>, m: Modes, o: LabelId) -> Part
    ensures { result ≡ asks_for_of caller.now.task caller.now.cred.now m o }
{
    Part::Asks {
        question: Question::Full {
            by: caller.task,
            s: caller.cred.label(),
            o,
            m,
        },
    }
}

/// The credentials by which a question is judged; those of the first task stand for a number that no
/// task ever had.
fn creds_by<'a>(state: &'a State, by: u16, first: &'a Cred) -> &'a Cred
    requires { first.now ≡ creds_first }
    ensures { result.now ≡ creds_of (world_seen state.now) by }
{
    match state.tasks.cred(by) {
        Some(cred) => cred,
        None => first,
    }
}

/// The verdict of a question.
#[tactic(auto, unfolding(world_spec::specs::Steps::verdict_of))]
fn ask(alloc: Global, state: &State, rules: &RuleIndex, question: Question) -> Verdict
    ensures { result ≡ verdict_of (world_seen state.now) (ruling_of rules.now) question }
{
    let first = Cred::first(alloc);
    match question {
        Question::Full { by, s, o, m } => decide(creds_by(state, by, &first), rules, s, o, m),
        Question::Attach { by, o } => decide_attach(creds_by(state, by, &first), rules, o),
    }
}

/// Goes through one part: the reply that ends the call, where there is one.
#[tactic(auto, using(crate::proofs::Ends::refused_ends, crate::proofs::Ends::asked_ends))]
fn stop_of(
    alloc: Global,
    checks: &mut Checks,
    state: &State,
    rules: &RuleIndex,
    part: Part,
) -> Result<Option<Reply>, AllocError>
    ensures { let verdict = verdict_of (world_seen state.now) (ruling_of rules.now) in
        IfOk result (λ stop. (more : List PartOf) → behind_checks checks.old (went verdict (part ∷ more)) ≡ ended_by checks.new stop (went verdict more)) }
{
    match part {
        Part::Refuses { holds, why } => {
            if holds {
                Ok(Some(Reply::Refused(why)))
            } else {
                Ok(None)
            }
        }
        Part::Asks { question } => {
            let verdict = ask(alloc, state, rules, question);
            checks.push(verdict)?;
            if verdict.allowed {
                Ok(None)
            } else {
                Ok(Some(Reply::Denied(verdict.case)))
            }
        }
    }
}

/// Goes through the parts of a call, in order, until one ends it.
pub fn judge_parts(
    alloc: Global,
    state: &State,
    rules: &RuleIndex,
    parts: &[Part],
) -> Result<Judgement, AllocError>
    ensures went { IfOk result (λ j. went_in j ≡ went (verdict_of (world_seen state.now) (ruling_of rules.now)) parts.now) }
    ensures passes { IfOk result (λ j. j.stop ≡ None → Passes parts.now) }
{
    let mut checks = Checks::new(alloc);
    for part in parts {
        if let Some(stop) = stop_of(alloc, &mut checks, state, rules, *part)? {
            return Ok(Judgement {
                checks,
                stop: Some(stop),
            });
        }
    }
    Ok(Judgement { checks, stop: None })
}
