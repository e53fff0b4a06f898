//! What the calls of tasks act on, and how the parts of a call are judged.
//!
//! A call is a list of parts and then an effect. Each family of calls makes the lists of its calls
//! in a crate of its own, and `judge_parts` goes through such a list: the first refusal that
//! applies, or the first question that is denied, ends the call.
//!
//! Stands on task_table for tasks, on smack_decide for verdicts, and on the definitions of
//! world_spec.
#![tactic(auto)]

mod caller;
mod files;
mod judging;
mod state;

pub use caller::Caller;
pub use files::RootFiles;
pub use judging::{Judgement, asks_for, judge_parts};
pub use state::{ROOT, State};
