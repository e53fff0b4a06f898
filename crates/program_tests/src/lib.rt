//! The whole program, and a kernel, run on worked cases: what no clause says, such as that an answer
//! comes where memory is found, and that tasks have threads of their own.
//!
//! Stands on smack_program and smack_kernel. It has tests alone, apart from what they test, so that
//! this is not proved once more below them.
#![tactic(auto)]

#[cfg(test)]
mod kernel_calls;
#[cfg(test)]
mod kernel_tests;
#[cfg(test)]
mod limit_tests;
#[cfg(test)]
mod run_tests;
#[cfg(test)]
mod tests;
#[cfg(test)]
mod version_tests;
