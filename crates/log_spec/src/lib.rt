//! What stands in a line that is printed. Plain data; the definitions stand in `specs/`.
//!
//! `Numerals` is how a number is written. `Words` says how a line is made of words, and the words
//! that stand in many lines: labels, call numbers, versions, decisions. `Audits` says which checks
//! the system's log tells of, and in which line. `Shown` says of what a line of a record is made
//! before labels and names of tasks are spelled: plain words, label ids and pids.
#![tactic(auto)]

ghost use Rattle.log_spec.specs.Numerals.{NumeralsTell};

/// What the system's log says that came of a check (Smack guide, the file `logging`).
#[derive(Clone, Copy, PartialEq, Eq)]
pub enum Action {
    /// It was allowed.
    Granted,
    /// It was not.
    Denied,
}

/// The law: numbers are equal where their numerals are, whatever their size.
#[tactic(auto, using(crate::proofs::Numerals::numeral_injective))]
pub fn numerals_tell()
    ensures { NumeralsTell }
{}
