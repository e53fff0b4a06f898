//! The tasks that were ever made, by their numbers.
//!
//! A contract sees `Tasks` as the list of `TaskRow` of `world_spec`, each task at the place of its
//! number; each call changes the row of one task, or adds a row, and leaves all others. A task that
//! has exited stays, so its credentials can be asked for and its pid is never used again.
//!
//! Stands on task_creds for credentials and on signal_box for signals. `first`, `begin` and
//! `fork` take memory.
#![tactic(auto)]

mod fault;
mod row;
mod tasks;

pub use fault::TaskFault;
pub use tasks::Tasks;
