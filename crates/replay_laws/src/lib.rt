//! Laws of the records of replayed scripts. The text of such a record tells it; no line of a script
//! vanishes from it; and some scripts with their records, from bytes to bytes.
//!
//! Laws of the definitions alone: `parse` of script_spec, `replayed` of replay_spec and `show` of
//! record_spec. Stands on text_laws and plain_laws.
#![tactic(auto)]

ghost use Rattle.replay_spec.specs.Laws.{EachCallIsOnce, EachLineIsRecorded, ReplayedTextTells};
ghost use Rattle.replay_laws.specs.Rows.{WorkedScripts};

/// The law: the text of a replayed record tells it.
#[tactic(auto, using(crate::proofs::OneRecord::replayed_text_tells))]
pub fn replayed_texts_tell_records()
    ensures { ReplayedTextTells }
{}

/// The law: each line of a script is one batch, one object call, or one of the other lines of its
/// record.
#[tactic(auto, using(crate::proofs::EachLine::each_line_is_recorded))]
pub fn no_line_vanishes()
    ensures { EachLineIsRecorded }
{}

/// The law: the calls of each task in the record are 1, 2, .. up to the number of its lines, each just
/// once.
pub fn each_call_is_once()
    ensures { EachCallIsOnce }
{}

/// Scripts and the texts of their records.
pub fn worked_scripts()
    ensures { WorkedScripts }
{}
