//! What a file tree is: its nodes and their attributes, what each change makes of them, and the list
//! of the names of a directory. Plain data; the definitions stand in `specs/`.
//!
//! The nodes are one list, which has a place for each node that was ever made (`Trees`). A node that
//! is gone leaves its place, so no number is used again. The names of a directory are those of its
//! nodes, in byte order (`Listed`). The attributes of a node are set, taken away and told one at a
//! time, and a new node has its labels from its creator, or from a directory that transmutes
//! (`Attributes`).
#![tactic(auto)]

mod attributes;
mod listing;
mod nodes;

pub use attributes::{Attr, AttrFault, AttrValue};
pub use listing::{ListedNames, Listing};
pub use nodes::{Kind, NodeLabels, NodeRow};
