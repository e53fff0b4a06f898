//! Laws of replays, over the definitions of `Replays` in world_spec: what a world stands for, and
//! what a task's credentials depend on; and worked rows of calls, one after another.
//!
//! A law is the contract of a function without a body.
#![tactic(auto)]

ghost use Rattle.world_laws.specs.Laws.{FirstStands, StepStands, LongerStands, OthersKeepCreds, OthersKeepCredAt, CredAtIsNow};
ghost use Rattle.world_laws.specs.WorkedCalls.{WorkedCalls};

/// The first world stands for the empty history over every journal.
#[tactic(auto, using(crate::proofs::Standing::first_stands))]
pub fn first_stands()
    ensures { FirstStands }
{}

/// A world that stands for its history over a journal stands, after a step in the newest version,
/// for the history and the entry of the step.
pub fn step_stands()
    ensures { StepStands }
{}

/// It stands for its history over every longer journal too.
pub fn longer_stands()
    ensures { LongerStands }
{}

/// A call of one task leaves the credentials of every other as they were, but of one that it makes.
#[tactic(auto, using(crate::proofs::Keeping::others_keep))]
pub fn others_keep_creds()
    ensures { OthersKeepCreds }
{}

/// The credentials of a task at one of its calls stay the same where the history goes on, but for
/// an earlier call of its own.
#[tactic(auto, using(crate::proofs::Points::kept_at))]
pub fn others_keep_cred_at()
    ensures { OthersKeepCredAt }
{}

/// They are those that the task has in the world, where the history has none of its later calls.
#[tactic(auto, using(crate::proofs::Points::at_is_now))]
pub fn cred_at_is_now()
    ensures { CredAtIsNow }
{}

/// Worked calls: signals, tracing, relabelling, self rules, files, and the most tasks.
#[tactic(auto, using(crate::proofs::Worked::worked))]
pub fn worked_calls()
    ensures { WorkedCalls }
{}
