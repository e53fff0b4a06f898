//! The label table: each label of a run has an id, its place in the table, and the predefined
//! labels `_ ^ * ? @` have the ids 0 to 4.
//!
//! A contract sees `Labels` as the list of the label texts by id: distinct labels that begin with
//! the predefined ones, as `len` says. An id that was given stays: the table only grows, at its
//! end. Ids and texts agree: `name` of the id of a text is that text, and the id of a name is the
//! id that it was asked for. At most 65,535 labels stand.
//!
//! Stands on `indexmap`: `add` and `id` look up by hash, where a guess by a few bytes of the text does
//! not find it. Only `new`, `add` and `copy` take memory.
#![tactic(auto)]

mod guesses;
mod labels;

pub use labels::{Labels, LabelsFault};
