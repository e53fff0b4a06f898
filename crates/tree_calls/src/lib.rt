//! The calls of tasks on the file tree: what each is refused for and asks, its reply, and its effect.
//!
//! `tree_judgement` goes through the parts of a call, by the definition `tree_asks` of world_spec.
//! Where nothing ends it, `tree_answer` is its answer and `tree_effect` puts it into effect, by the
//! definition `tree_left`. The tree is a root directory with files.
//!
//! Stands on world_state for what calls act on.
#![tactic(auto)]

mod calls;
mod names;

pub use calls::{tree_answer, tree_effect, tree_judgement};
