//! The walk of a path: the questions and refusals that lead to its node, in order, as parts of a
//! call. Each directory is searched before a name in it is looked up. Where the parts were judged
//! before, the directory and the node of a path are found alone.
#![tactic(auto)]

mod places;
mod walks;

pub use places::{directory_at, last_name, node_at};
pub use walks::{Walked, put_walk_to_directory, put_walk_to_node};
