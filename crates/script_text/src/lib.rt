//! Reads a script: the calls that its lines spell, as slices of the input, the names of its tasks,
//! and its label table.
//!
//! A contract sees a `Script` as the list of its calls, each with its words and its text at their
//! places. `Script::read` is exact to the grammar of `script_spec`: it gives the script that the
//! bytes are, or the first line that breaks the grammar or a limit. What the grammar reads off the
//! calls above a line is kept here in tables (`Draft`), so that a script is read in one pass. No
//! word is copied.
//!
//! Stands on rule_text for lines and words, on call_words for what the words are, on smackfs for texts
//! and on label_table for the labels.
#![tactic(auto)]

mod causes;
mod labels;
mod line;
mod reading;
mod script;
mod spelled;
mod tasks;
mod texts;
mod words;

pub use line::Line;
pub use script::{MOST_BYTES, Script};
pub use script_spec::{Cause, ScriptFault, What};
