//! The words that every layer speaks: labels, access modes, paths, ids of labels and tasks,
//! capabilities, rule writes, and the one list type.
//!
//! A contract sees a `Label` as its bytes, `Modes` as a set of six flags, a `Path` as the list of
//! its names, and a `Sequence` as the list of its items. A text is read exactly by its rule
//! (`specs/Labels.antt`, `specs/Modes.antt`, `specs/Paths.antt`): a label, a mode set or a path, or
//! the first fault in the order that the rule gives.
//!
//! The crate stands on std alone. Only `push`, `reserve`, `copy`, `from_slice` and
//! `Path::read` take memory.
#![tactic(auto)]

mod cap;
mod ids;
mod label;
mod laws;
mod modes;
mod path;
mod path_names;
mod rule_op;
mod sequence;

pub use cap::Cap;
pub use ids::{LabelId, Pid};
pub use label::{Label, LabelFault};
pub use laws::holding_is_inclusion;
pub use modes::{BadLetter, ModeText, Modes};
pub use path::{Path, PathFault, is_path};
pub use rule_op::{Pair, Pairs, RuleOp, RuleOps};
pub use sequence::{Bytes, Duplicate, Ids, NameList, Sequence};
