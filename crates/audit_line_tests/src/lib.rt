//! Lines of the system's log, printed and read on worked cases.
//!
//! Stands on audit_line. It has tests alone, apart from what they test, so that this is not proved once more
//! below them.
#![tactic(auto)]

#[cfg(test)]
mod tests;
