//! The rules of a version, ready to be asked: a `RuleIndex` holds the rules and settings that the
//! batches of a version make, and takes the next batch.
//!
//! A contract sees a `RuleIndex` as plain data, and `ruling_of` says what that data answers. The
//! index `StandsFor` a version where it answers all as the version does: `new` stands for version
//! 0, `absorb` for the next one, `copy` for the same one. Each question has its exact answer,
//! `ruling_of` of the index, and so that of each version that the index stands for.
//!
//! Stands on `rules_spec` for what versions mean, and on `indexmap`: a question is answered by one
//! look-up by hash, and only `new`, `absorb` and `copy` take memory.
#![tactic(auto)]

mod policy;
mod rule_index;

pub use rule_index::RuleIndex;
pub use rules_spec::{Batch, Journal};
