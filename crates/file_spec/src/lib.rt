//! What the text of a smackfs file means. Plain data; the definitions stand in `specs/`.
//!
//! `Writes` says which writes a text spells for a file, its labels by name, or which is its first
//! bad line, and which labels and how many rows of a journal a text has. `Files` says what a text
//! becomes with a label table, or why it is refused.
#![tactic(auto)]

use smack_base::{Ids, Pairs, RuleOps};
use text_spec::BadLine;

/// The smackfs files whose text becomes writes to rules and settings (Smack guide, its list of
/// smackfs files).
#[derive(Clone, Copy, PartialEq, Eq)]
pub enum RuleFile {
    /// `load2`: lines of subject, object and access.
    Load2,
    /// `load`: the same in lines of 53 bytes.
    Load,
    /// `change-rule`: lines of subject, object, modes to add and modes to take away.
    ChangeRule,
    /// `revoke-subject`: lines of one subject.
    RevokeSubject,
    /// `onlycap`: a list of labels, or a dash.
    Onlycap,
    /// `ambient`: one label.
    Ambient,
    /// `ptrace`: one number from 0 to 2.
    Ptrace,
    /// `logging`: one number from 0 to 3.
    Logging,
}

/// The smackfs files whose text is a call on the writing task (Smack guide, its list of smackfs
/// files).
#[derive(Clone, Copy, PartialEq, Eq)]
pub enum SelfFile {
    /// `load-self2`: self rules, in a text as that of `load2`.
    LoadSelf2,
    /// `load-self`: self rules, in a text as that of `load`.
    LoadSelf,
    /// `relabel-self`: the labels that the task may take, in a text as that of `onlycap`.
    RelabelSelf,
}

/// The smackfs files that can be written.
#[derive(Clone, Copy, PartialEq, Eq)]
pub enum SmackFile {
    /// Its text becomes writes to rules and settings.
    Rule(RuleFile),
    /// Its text becomes a call on the writing task.
    Own(SelfFile),
}

/// Why a write to a smackfs file is refused, the first in this order.
#[derive(Clone, Copy, PartialEq, Eq)]
pub enum Refusal {
    /// There is no such file.
    NoSuchFile,
    /// The text has more than 65,536 bytes.
    TooLong,
    /// The first bad line, and its first fault.
    BadLine(BadLine),
    /// No line is bad; this one is the first with a label that the table lacks.
    UnknownLabel { line: u32 },
    /// The writer lacks CAP_MAC_ADMIN.
    NotPrivileged,
    /// The journal, which has so many rows, has no room.
    JournalFull { rows: u32 },
}

/// What the text of a smackfs file becomes.
#[derive(Drop)]
pub enum Compiled {
    /// A batch of rule writes.
    Rules(RuleOps),
    /// Self rules of the writing task.
    SelfRules(Pairs),
    /// The labels that the writing task may take.
    Relabels(Ids),
}
