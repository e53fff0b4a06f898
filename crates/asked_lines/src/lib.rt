//! The asked lines of a run, kept apart by their tasks.
//!
//! A contract sees `AskedByTask` as the list that a record has: by rising task number, and the lines
//! of one task in the order in which they were put in. Putting one in costs the same however many
//! there are. `AskedBlocks` is seen as the lines in the order in which they came, of whichever tasks,
//! and gives them in that of a record.
//!
//! Stands on record_spec for the lines and on replay_spec for their order.
#![tactic(auto)]

mod blocks;
mod by_task;

pub use blocks::AskedBlocks;
pub use by_task::AskedByTask;
pub use record_spec::{AskedLine, AskedLines, AskedWhat};
