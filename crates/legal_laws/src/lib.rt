//! The record of a script that is replayed is legal for the script.
//!
//! Laws of the definitions alone: `parse` of script_spec, `replayed` of replay_spec and `IsLegalFor`
//! of legal_spec. A law is the contract of a function without a body.
#![tactic(auto)]

ghost use Rattle.legal_laws.specs.Interleaved.{OtherOrder};
ghost use Rattle.legal_laws.specs.RefusedRecords.{RefusedRecords};
ghost use Rattle.legal_laws.specs.UnfitRecords.{UnfitRecords};
ghost use Rattle.legal_spec.specs.Laws.{ReplayedIsLegal};

/// The law: the record of a script that is replayed is legal for the script.
pub fn replayed_records_are_legal()
    ensures { ReplayedIsLegal }
{}

/// Records that are not legal, and where.
pub fn records_that_are_refused()
    ensures { RefusedRecords }
{}

/// Records that do not fit a script.
pub fn records_that_do_not_fit()
    ensures { UnfitRecords }
{}

/// A record in another order than the replay's that is legal for its script.
pub fn another_order_is_legal()
    ensures { OtherOrder }
{}
