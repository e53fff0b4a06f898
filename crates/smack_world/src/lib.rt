//! The machine: the world that the calls of tasks act on, and the trail of what came of them.
//!
//! A contract sees a `World` as a record: the world of `world_spec` and the list of its entries.
//! `step` takes a call by the definition `step` in one rule version, and puts one entry into the
//! trail. It takes all memory before anything changes; where memory or the trail ends, the call
//! comes back and all is as before. The caller's credentials after the call are handed out, where the
//! call may have renewed them: its effect alone says which they are.
//!
//! A world that its trail leaves over a journal, by `replay_of`, is so after each step in the newest
//! version.
//!
//! Stands on a crate for each family of calls (task_calls, tree_calls), on world_state for what they
//! act on, on rule_fold for the rules of a version, on task_creds for credentials, and on the
//! definitions of world_spec.
#![tactic(auto)]

mod acting;
mod world;

pub use world::{Stepped, World};
pub use world_spec::{Call, Entry, Listing, Reply, TaskCall, Trail, TreeCall, Why};
