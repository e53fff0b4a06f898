//! The signals that wait for a task.
//!
//! A contract sees a `Pending` as the list of its signals, in rising order and each once; each call
//! changes it by the definitions of `Signals` in `world_spec`. Takes no memory.
#![tactic(auto)]

mod pending;

pub use pending::{OutOfRange, Pending, is_signal};
