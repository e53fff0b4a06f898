//! What texts mean: lines and words, the lines of rule texts, and label tables. Plain data; the
//! definitions stand in `specs/`.
//!
//! `Texts` cuts a list of bytes into lines and words, each with its place. `RuleTexts` says what
//! the lines of each form of rule text are, and the first fault of a line that is none. `Names`
//! says what a table of names is, and which label has which place in it.
#![tactic(auto)]

use smack_base::LabelFault;

/// The forms of a text of rules (Smack guide, its list of smackfs files).
#[derive(Clone, Copy, PartialEq, Eq)]
pub enum RuleForm {
    /// `subject object access`, parted by spaces or tabs (`load2`).
    Long,
    /// Lines of 53 bytes: subject 24, object 24, access 5 (`load`).
    Short,
    /// `subject object allow deny`, parted by spaces or tabs (`change-rule`).
    Change,
}

/// What is wrong with a line of a text of rules, the first in this order.
#[derive(Clone, Copy, PartialEq, Eq)]
pub enum LineFault {
    /// So many fields stand in the line, and not as many as its form has.
    Fields { n: u32 },
    /// The line has so many bytes, and neither 0 nor 53.
    Width { n: u32 },
    /// The subject is no label.
    Subject(LabelFault),
    /// The object is no label.
    Object(LabelFault),
    /// The byte at this place of the access field, from 0, is the first that is no mode letter.
    Allow { at: u32 },
    /// The same of the field of modes to be taken away.
    Deny { at: u32 },
    /// The word of a list is no label.
    Label(LabelFault),
    /// The word is no number that the file takes.
    Number,
}

/// The first bad line of a text: its number, from 1, and its first fault.
#[derive(Clone, Copy, PartialEq, Eq)]
pub struct BadLine {
    pub line: u32,
    pub fault: LineFault,
}
