//! The record of a script that is replayed is plain: its calls are what lines of a script give, its
//! labels are those of the script's table, and each number, name and limit in it is one that the
//! format can tell.
//!
//! A law of the definitions alone: `parse` of script_spec, `replayed` and `IsPlain` of replay_spec.
#![tactic(auto)]

ghost use Rattle.replay_spec.specs.Laws.{ReplayedIsPlain};

/// The law: the record of a script that is replayed is plain.
#[tactic(auto, using(crate::proofs::Replays::replayed_is_plain))]
pub fn replayed_records_are_plain()
    ensures { ReplayedIsPlain }
{}
