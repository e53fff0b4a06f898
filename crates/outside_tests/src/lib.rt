//! Sources, sinks and their adapters to std, run on worked cases.
//!
//! Stands on outside. It has tests alone, apart from what they test, so that this is not proved once more
//! below them.
#![tactic(auto)]

#[cfg(test)]
mod tests;
