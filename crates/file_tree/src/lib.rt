//! The file tree: its nodes as one list, with an index of the names in each directory beside it. A
//! contract sees the list of the nodes alone, those that are gone included.
//!
//! A look-up, a new node, a removal and a move cost the logarithm of the directory; a listing takes
//! one step for each name up to its last. Where memory is wanted nothing has changed.
#![tactic(auto)]

mod names;
mod rows;
mod tree;

pub use tree::Tree;
