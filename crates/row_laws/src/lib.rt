//! Worked rows of labels, label tables, access modes, paths, lines of rules, texts of smackfs files, versions of
//! rules, and decisions, computed from the definitions. A function of this crate does nothing; its
//! contract is the rows.
#![tactic(auto)]

ghost use Rattle.row_laws.specs.Words.{WorkedWords, WorkedPaths, WorkedTables};
ghost use Rattle.row_laws.specs.RuleLines.{WorkedRuleLines};
ghost use Rattle.row_laws.specs.Files.{WorkedFiles};
ghost use Rattle.row_laws.specs.Versions.{WorkedVersions};
ghost use Rattle.row_laws.specs.Decisions.{WorkedDecisions};

/// Texts that are labels or access modes, or why they are not.
#[tactic(auto, using(crate::proofs::Worked::words))]
pub fn worked_words()
    ensures { WorkedWords }
{}

/// Texts that are paths, or why they are not.
#[tactic(auto, using(crate::proofs::Worked::paths))]
pub fn worked_paths()
    ensures { WorkedPaths }
{}

/// The ids of labels in a table.
#[tactic(auto, using(crate::proofs::Worked::tables))]
pub fn worked_tables()
    ensures { WorkedTables }
{}

/// Lines of rules, subjects and labels, and the first bad line of texts.
#[tactic(auto, using(crate::proofs::Worked::rule_lines))]
pub fn worked_rule_lines()
    ensures { WorkedRuleLines }
{}

/// What texts that are written to smackfs files become, or why they are refused.
#[tactic(auto, using(crate::proofs::Worked::files))]
pub fn worked_files()
    ensures { WorkedFiles }
{}

/// What versions of rules say after writes of each kind.
#[tactic(auto, using(crate::proofs::Worked::versions))]
pub fn worked_versions()
    ensures { WorkedVersions }
{}

/// Questions answered by the ordered cases (Smack guide, its section on access rules), by self rules
/// and by privilege; capabilities under onlycap; and attaching by ptrace under each policy.
#[tactic(auto, using(crate::proofs::Worked::decisions))]
pub fn worked_decisions()
    ensures { WorkedDecisions }
{}
