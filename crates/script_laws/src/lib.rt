//! The grammar of scripts as a relation on whole lines, and the law that `parse` of `script_spec` is
//! that relation: what it gives is related, and nothing else is.
//!
//! `specs/Parses.antt` says in the words of the format what a script is: lines that are skipped, the
//! lines of calls, and the lines of their texts. `specs/Slices.antt` says that what is read are slices
//! of the input. A function of this crate does nothing; its contract is the law.
#![tactic(auto)]

ghost use Rattle.std.specs.Prelude.{◌≡◌, ℕ, List, Result};
ghost use Rattle.script_spec.specs.declared.ScriptFault.{ScriptFault};
ghost use Rattle.script_spec.specs.Lines.{ScriptLine};
ghost use Rattle.script_spec.specs.Grammar.{parse};
ghost use Rattle.script_laws.specs.Parses.{Parses};
ghost use Rattle.script_laws.specs.Slices.{CallsAreSlices};
ghost use Rattle.script_laws.specs.WorkedScripts.{WorkedFaults, ReadScripts};

/// Bytes parse as what the grammar relates them to, and as nothing else.
#[tactic(auto, using(crate::proofs::Grammar::sound))]
pub fn parse_is_the_grammar()
    ensures sound { (bytes : List ℕ) → Parses bytes (parse bytes) }
    ensures complete { (bytes : List ℕ) (read : Result (List ScriptLine) ScriptFault) → Parses bytes read → parse bytes ≡ read }
{}

/// Each word of a call, and its text, is the slice of the input at its place.
pub fn calls_are_slices()
    ensures { CallsAreSlices }
{}

/// Scripts with a bad line, computed from the definitions.
#[tactic(auto, using(crate::proofs::Worked::scripts))]
pub fn worked_scripts()
    ensures { WorkedFaults }
{}

/// What is read of good scripts, computed from the definitions.
pub fn read_scripts()
    ensures { ReadScripts }
{}
