//! A text tells its record: where two plain records have the same labels and the same names of
//! tasks, and their texts are equal, the records are equal. So who knows the labels and the tasks
//! reads all of such a record in its text.
//!
//! And each line of the system's log in a plain record is one that audit_line reads back.
//!
//! Laws of the definitions alone: `show` of record_spec, `IsAudited` of log_spec and `IsPlain` of
//! replay_spec.
#![tactic(auto)]

ghost use Rattle.replay_spec.specs.Laws.{LogIsRead, TextTellsRecord};

/// The law: plain records with the same labels and names are equal where their texts are.
#[tactic(auto, using(crate::proofs::Records::text_tells_record))]
pub fn texts_tell_records()
    ensures { TextTellsRecord }
{}

/// The law: what is told of each check in a plain record is what a line of the system's log can
/// tell; so audit_line reads that line back.
#[tactic(auto, using(crate::proofs::Logs::log_is_read))]
pub fn logs_are_read()
    ensures { LogIsRead }
{}
