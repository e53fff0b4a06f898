//! What records mean: all that a run leaves, and its text. Plain data; the definitions stand in
//! `specs/`.
//!
//! `Tasks` reads off the object calls which tasks a run had. `Show` is the lines of a record, and its
//! text, which spells them; `Entries` is those of an object call with its checks, the lines of the
//! system's log and its reply, and `Refusals` the words of a refused write. `WorkedRecord` is a worked
//! record.
#![tactic(auto)]

ghost use Rattle.record_spec.specs.WorkedRecord.{ShowsInOrder};

use file_spec::Refusal;
use label_table::Labels;
use rules_spec::{Journal, Verdict};
use smack_base::{Bytes, Duplicate, NameList, Pid, Sequence};
use std::alloc::AllocError;
use world_spec::Trail;

/// What a line that is neither a batch nor an object call did, with its answer.
#[derive(Drop)]
pub enum AskedWhat {
    /// A question on a subject, an object and modes.
    Ask(Verdict),
    /// A write to a smackfs file that was refused.
    Refused { file: Bytes, fault: Refusal },
    /// A task waited for the end of the task with this pid.
    Wait { pid: Pid },
}

impl Duplicate for AskedWhat {
    fn copy(&self) -> Result<AskedWhat, AllocError> {
        match self {
            AskedWhat::Ask(verdict) => Ok(AskedWhat::Ask(*verdict)),
            AskedWhat::Refused { file, fault } => Ok(AskedWhat::Refused {
                file: file.copy()?,
                fault: *fault,
            }),
            AskedWhat::Wait { pid } => Ok(AskedWhat::Wait { pid: *pid }),
        }
    }
}

/// A line that is neither a batch nor an object call.
#[derive(Drop)]
pub struct AskedLine {
    /// The number of the task, from 0.
    pub task: u16,
    /// The number of the task's call, from 1.
    pub seq: u32,
    /// The rule version that it was answered in.
    pub version: u32,
    /// What was asked.
    pub what: AskedWhat,
}

impl Duplicate for AskedLine {
    fn copy(&self) -> Result<AskedLine, AllocError> {
        Ok(AskedLine {
            task: self.task,
            seq: self.seq,
            version: self.version,
            what: self.what.copy()?,
        })
    }
}

/// Asked, refused and waited lines, by rising task number and then call number. `copy` copies them.
pub type AskedLines = Sequence<AskedLine>;

/// All that a run leaves.
#[derive(Drop)]
pub struct RunRecord {
    /// The labels by id.
    pub labels: Labels,
    /// The names of the tasks by pid; the first is that of task 0.
    pub names: NameList,
    /// The published batches.
    pub journal: Journal,
    /// The object calls.
    pub history: Trail,
    /// The asked, refused and waited lines.
    pub asked: AskedLines,
}

/// A task of a run.
#[derive(Clone, Copy, PartialEq, Eq)]
pub struct NumberedTask {
    /// The number that the run gave it, from 0.
    pub number: u16,
    /// The caller's name for it.
    pub pid: Pid,
}

/// The law: which labels and which tasks the text of a worked record shows, in their order.
#[tactic(auto, using(crate::proofs::WorkedRecord::shows_in_order))]
pub fn worked_record_shows_in_order()
    ensures { ShowsInOrder }
{}
