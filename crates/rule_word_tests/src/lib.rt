//! Rule writes and heads, packed and read on worked cases.
//!
//! Stands on rule_word. It has tests alone, apart from what they test, so that this is not proved once more
//! below them.
#![tactic(auto)]

#[cfg(test)]
mod tests;
