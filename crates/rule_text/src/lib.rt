//! Texts read in place: lines, words, lines of rules, lists of labels. No memory is taken; what is
//! read is a `Part`, a slice of the text with the place of its first byte.
//!
//! A contract sees a `Part` as a run of bytes at its place. `split_line`, `split_lines` and
//! `split_word` are exact to the lines and words of a text, and a reader, `RuleLines`,
//! `SubjectLines` or `LabelWords`, is the list of answers that it will still give: each good line or
//! label in order, and the first fault last. `one_word` reads a text of one word.
//!
//! The laws say that each part is the slice of the text at its place, and lies in its own line.
//!
//! The crate stands on `smack_base`, on `text_spec`, where its definitions are, and on `memchr`, which
//! finds the line feeds.
#![tactic(auto)]

mod counted;
mod label_words;
mod laws;
mod lines;
mod part;
mod rule_line;
mod rule_lines;
mod short_line;
mod subject_lines;
mod text_words;
mod worded_line;
mod words;

pub use label_words::{LabelWords, one_word};
pub use laws::{
    labels_are_slices, lines_are_slices, places_move, rule_fields_are_slices, words_are_slices,
};
pub use lines::{split_line, split_lines};
pub use part::Part;
pub use rule_line::RuleLine;
pub use rule_lines::RuleLines;
pub use subject_lines::SubjectLines;
pub use text_spec::{BadLine, LineFault, RuleForm};
pub use words::{Separator, split_word};
