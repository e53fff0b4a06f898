//! The calls of tasks on tasks: what each is refused for and asks, its reply, and its effect.
//!
//! `task_judgement` goes through the parts of a call, by the definition `task_asks` of world_spec.
//! Where nothing ends it, `task_reply` is its reply and `task_effect` puts it into effect, by the
//! definition of that name.
//!
//! Stands on world_state for what calls act on, on task_table, task_creds and signal_box for what
//! they change there.
#![tactic(auto)]

mod calls;

pub use calls::{task_effect, task_judgement, task_reply};
