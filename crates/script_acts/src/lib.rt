//! Where the lines of a script task stand.
//!
//! `line_between` and `wait_between` give the lines of one task of the script between two places, and
//! the line by which it waits for a child.
//!
//! Stands on script_calls for the words of lines. Of runs_spec it has the definitions alone: the lines
//! of a task between two places, and which of them wait for a child.
#![tactic(auto)]

mod places;

pub use places::{line_between, wait_between};
