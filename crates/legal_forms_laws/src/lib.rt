//! The tests of `legal_forms` decide the clauses of a legal record; and object calls that are steps
//! of one world, as a kernel makes them, are judged as such a record asks.
//!
//! Laws of the definitions alone. A law is the contract of a function without a body.
#![tactic(auto)]

ghost use Rattle.legal_forms.specs.Laws.{NamesAreDecided, EntriesAreDecided, FirstWrongIsTold, BatchesAreDecided, LinesAreDecided, CallsAreDecided, FreshnessIsDecided, LegalityIsDecided};
ghost use Rattle.legal_spec.specs.Laws.{StepsAreJudged};

/// Object calls that are steps of one world, in versions that never fall, are judged as a legal
/// record asks; and where each check is shown as it was judged, only such calls are.
pub fn steps_are_judged()
    ensures { StepsAreJudged }
{}

/// Whether the names of a record are names of tasks, and distinct.
pub fn names_are_decided()
    ensures { NamesAreDecided }
{}

/// Whether its object calls are judged: each at its place.
pub fn entries_are_decided()
    ensures { EntriesAreDecided }
{}

/// The place of the first object call that is not judged, where there is one.
pub fn first_wrong_is_told()
    ensures { FirstWrongIsTold }
{}

/// Whether its batches were published by tasks with the privilege.
pub fn batches_are_decided()
    ensures { BatchesAreDecided }
{}

/// Whether its asked, refused and waited lines are so.
pub fn lines_are_decided()
    ensures { LinesAreDecided }
{}

/// Whether each call stands once and in order.
pub fn calls_are_decided()
    ensures { CallsAreDecided }
{}

/// Whether no call is judged in a version older than its task had seen or been told of, where each
/// call stands once and in order.
pub fn freshness_is_decided()
    ensures { FreshnessIsDecided }
{}

/// Whether a record is legal.
pub fn legality_is_decided()
    ensures { LegalityIsDecided }
{}
