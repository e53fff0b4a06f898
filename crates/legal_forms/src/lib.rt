//! The clauses of a legal record in a form that computes, for whoever decides whether a record is
//! legal. Definitions alone, in `specs/`; people read the clauses themselves, in legal_spec.
//!
//! `Same` compares verdicts and replies. `MadeCalls` lists the calls and the forks of a record.
//! `Forms` has one test for each clause, and `Laws` says that it decides the clause.
#![tactic(auto)]
