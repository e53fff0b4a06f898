//! When a record is one legal history, and when it is legal for a script. Definitions alone, in
//! `specs/`.
//!
//! `Calls` says what a call of a record is, with the rule version that it needs and the one that it
//! reaches, which tasks there are, and who descends from whom. `Entries` says what an object call is
//! at its place. `Legal` has the clauses of a legal record, each by name. `Lines` says what one line
//! of a script may have become, `Fits` that a record has the labels, the tasks and the lines of a
//! script, and `Laws` what follows for replays, and for entries that are steps.
#![tactic(auto)]
