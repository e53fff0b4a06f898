//! The whole program, over any source, any sink and any standard error.
//!
//! `smack_main` does what the words of the command line say; its contract says what was read and
//! written at each status. `told_main` tells that status on standard error too, and gives the exit
//! status. `program` calls it over the words that the system gave and over streams of std, with a
//! gate that holds nobody up, and hands the streams back: its contract is `told_main`'s, on the bytes
//! that the streams' types tell.
//!
//! Stands on script_text, script_run and run_report for a script, its run and its text, on
//! smack_kernel for what is kept of a run, and on outside for the source, the sinks and the gate.
#![tactic(auto)]

mod calm;
mod command;
mod given;
mod reading;
mod records;
mod running;
mod status;
mod telling;
mod top;
mod writing;

pub use calm::{replay_calm, run_calm};
pub use running::{Ending, Finished, given_main, program, told_main};
pub use status::Status;
pub use telling::tell;
pub use top::{replay_main, run_main, smack_main};
