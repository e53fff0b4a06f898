//! Replays a script: its record.
//!
//! `replay` takes the calls of a script in written order, on one thread, each judged at the newest
//! rule version. Its record is `replayed` of `replay_spec`, one function of the script, and it is
//! plain: its text tells all of it. `into_record` does the same with less memory, and takes the
//! script for itself.
//!
//! Stands on script_calls for the lines as calls, on smackfs for rule texts, on rule_fold and
//! smack_decide for the answers to questions, on smack_world for the steps of object calls, and on
//! plain_laws and legal_laws for the laws of replayed records.
#![tactic(auto)]

mod replaying;
mod runner;

pub use record_spec::RunRecord;
pub use replaying::{into_record, replay};
