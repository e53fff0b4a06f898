//! What rules mean: published batches, the version that they make, the rights and settings of a
//! version, and the ordered cases that answer a question in it. Plain data; the definitions stand
//! in `specs/`.
//!
//! A journal is the list of published batches, and version n of it is its first n batches.
//! `Versions` folds the writes of a version into rights and settings, `Rulings` names all that a
//! version says, and `Cases` is the table of the ordered cases. `Creds` has the credentials of a
//! task, and `Verdicts` what they add to the cases.
#![tactic(auto)]

mod asked_modes;

pub use asked_modes::{EXECUTE, READ, READ_EXECUTE, READ_WRITE, WRITE};
use smack_base::{Duplicate, LabelId, Modes, RuleOps, Sequence};
use std::alloc::AllocError;

/// The writes that one call of one task published together; each batch makes a version.
#[derive(Drop)]
pub struct Batch {
    /// The number of the task, from 0.
    pub task: u16,
    /// The number of the task's call, from 1.
    pub seq: u32,
    /// The writes, in order; there may be none.
    pub ops: RuleOps,
}

/// The published batches, the oldest first.
pub type Journal = Sequence<Batch>;

impl Duplicate for Batch {
    fn copy(&self) -> Result<Batch, AllocError> {
        Ok(Batch {
            task: self.task,
            seq: self.seq,
            ops: self.ops.copy()?,
        })
    }
}

/// The answer to one question: may this subject have these modes on this object?
#[derive(Clone, Copy, PartialEq, Eq)]
pub struct Verdict {
    /// Yes or no.
    pub allowed: bool,
    /// The number of the case that decided.
    pub case: u8,
    /// The denying case that was overridden, or 0.
    pub over: u8,
    /// The subject of the question.
    pub subject: LabelId,
    /// The object of the question.
    pub object: LabelId,
    /// The modes that were asked for.
    pub modes: Modes,
}

/// Verdicts in the order in which their questions were asked.
pub type Checks = Sequence<Verdict>;

impl Duplicate for Verdict {
    fn copy(&self) -> Result<Verdict, AllocError> {
        Ok(*self)
    }
}
