//! Lines of the system's log: each tells one check, as
//! `a action=denied fn=unlink subject=A object=_ requested=rw case=7`.
//!
//! `selected` says which checks are logged in a logging mode, `put_line` prints the line of one, and
//! `read_line` reads a line back. A contract sees a line as its bytes, its line feed with them, and
//! what it tells as an `Audited`.
//!
//! Printing and reading fit: `read_line` gives the parts of each line that can be written, and of no
//! other bytes.
//!
//! Stands on `log_spec`, where the lines are defined, on `smack_base` for labels and modes, on
//! `label_table` for names, and on `itoa` for numbers. Only `put_line` takes memory.
#![tactic(auto)]

mod line;
mod parts;
mod values;
mod words;

pub use line::{put_line, selected};
pub use parts::{AuditParts, read_line};
