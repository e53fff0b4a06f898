//! Smackfs files: which writes the text of a file spells, and what it becomes or why it is refused.
//!
//! `TextWrites` reads the writes of a text one after another, for each of the eight files of rules
//! and settings; its labels are parts of the text. A contract sees the answers that are still to
//! come. A text of the writing task is read by the form of such a file (`read_as`). `compile` looks
//! the labels up and is exact to `compiled` of `file_spec`, for all eleven files. A text is
//! refused for the first of: no such file, too long, the first bad line, the first line with a label
//! that the table lacks.
//!
//! Stands on rule_text for lines and words and on label_table for the ids of labels.
#![tactic(auto)]

mod compiling;
mod named_op;
mod text_writes;

pub use compiling::{TextFault, compile, file_of, read_as};
pub use file_spec::{Compiled, Refusal, RuleFile, SelfFile, SmackFile};
pub use named_op::{NamedOp, NamedOps};
pub use text_writes::{TextWrites, WritesFault, first_bad, read_writes};
