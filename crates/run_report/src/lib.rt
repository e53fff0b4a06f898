//! Writes the text of a record to a sink, line by line.
//!
//! A contract sees a `RunRecord` as plain lists, and its text is `show` of `record_spec`.
//! `put_record` writes that text: each line with its line feed is one piece, and what the sink did
//! not take of it is offered again. A fault ends the writing, and a front of the text was taken.
//!
//! Stands on outside for the sink, on call_words for the words of calls, and on audit_line for the
//! lines of the system's log.
#![tactic(auto)]

mod entries;
mod fault;
mod lines;
mod modes;
mod page;
mod printed;
mod record;
mod refusals;
mod replies;
mod tasks;
mod words;

pub use fault::ReportFault;
pub use record::put_record;
pub use record_spec::{AskedLine, AskedLines, AskedWhat, RunRecord};
