//! Runs a script: its record.
//!
//! `run` runs each task of a script on a thread of its own, at one kernel. Which record it gives hangs
//! on how the threads interleave; each that it may give is legal for the script, and plain. `work` is
//! the part of it between the start of the kernel and its end. `replay` and `into_record` of
//! `script_replay` stand beside them.
//!
//! Stands on script_text for the calls of a script, on script_acts for what its lines do, on
//! smack_kernel for the tasks, on asked_lines for the lines beside a record's calls, and on runs_spec
//! and run_laws for the laws of runs.
#![tactic(auto)]

mod making;
mod running;
mod stage;
mod waits;
mod workers;

pub use making::Stop;
pub use record_spec::RunRecord;
pub use running::{Ran, run};
pub use script_replay::{into_record, replay};
pub use workers::{Worked, work};
