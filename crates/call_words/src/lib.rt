//! The words of calls: words to values, values to calls, and calls to words.
//!
//! `verb_of` gives the verb of a name and `kinds_of` the kinds of the words behind it; `bad_word` is
//! the first word that is not of its kind. `made_call` gives the object call that words make, by the
//! values that they are read as, and `put_call` writes a call as words. Each is exact to the
//! definition of its name in `verb_spec`. What a verb of a family is stands in one file, `tasks` or
//! `trees`: its name, the kinds of its words, its call from values, and the words of its call.
//!
//! Stands on rule_text for words, on label_table for labels, and on itoa for numbers.
#![tactic(auto)]

mod kinds;
mod printing;
mod spelling;
mod tasks;
mod trees;
mod values;
mod verbs;
mod words;

pub use kinds::{bad_word, file_word, lines_word};
pub use printing::{put_decimal, put_label, put_modes, put_name, put_number, put_triple, put_word};
pub use spelling::Spelling;
pub use values::{modes_in, pid_in};
pub use verb_spec::{CallVerb, Verb, WordKind};
pub use verbs::{call_verb, is_unbuilt_verb, kinds_of, made_call, put_call, verb_of};
pub use words::{is_deep, is_one_of, is_task_name, number_of, word};
