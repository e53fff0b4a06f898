//! The decision: may a subject have these modes on an object?
//!
//! `cases` judges by the ordered cases of the Smack guide alone, and `decide` by the self rules and
//! the privilege of a task as well. `decide_attach` judges attaching by ptrace. Each answer is a
//! `Verdict`: yes or no, and the number of the case that decided. A contract states it by the
//! definitions of `rules_spec`, for every version that the index stands for, and exactly by what
//! the index answers.
//!
//! Stands on rule_fold for the rules of a version and on task_creds for the credentials of a task.
//! No call refuses, and none takes memory.
#![tactic(auto)]

mod attaching;
mod full_verdict;
mod ordered_cases;
mod privilege;

pub use attaching::decide_attach;
pub use full_verdict::decide;
pub use ordered_cases::cases;
pub use privilege::effective;
pub use rules_spec::{Checks, Verdict};
