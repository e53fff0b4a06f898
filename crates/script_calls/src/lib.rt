//! What the lines of scripts do.
//!
//! `act_of` gives what a line does, by the labels of the script and the names of its tasks
//! (`names_of`): it writes, asks, waits, forks or makes another object call.
//!
//! Stands on script_text for the lines, on call_words for the calls that their words make, and on
//! replay_spec for what lines do.
#![tactic(auto)]

mod acts;
mod names;

pub use acts::act_of;
pub use names::names_of;
pub use replay_spec::Act;
