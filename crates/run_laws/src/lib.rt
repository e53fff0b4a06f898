//! What the tasks of a script did at a kernel is a legal record for the script.
//!
//! Laws of the definitions alone: `parse` of script_spec, `Ran` of runs_spec, `IsWholeTask` and `Closes` of smack_kernel, and
//! `IsLegalFor` of legal_spec. A law is the contract of a function without a body.
#![tactic(auto)]

ghost use Rattle.run_laws.specs.Laws.{RunsAreWhole, RunsAreLegal, RunsAreLegalForScripts, RunsArePlain, RunsHaveRoom, ScriptsAreOrderly};
ghost use Rattle.run_laws.specs.WorkedLoads.{WorkedLoads};

/// The law: however far the tasks of a script came, the first task may close the kernel.
pub fn runs_are_whole()
    ensures { RunsAreWhole }
{}

/// The law: what they came to, where none stopped, is a legal record.
pub fn runs_are_legal()
    ensures { RunsAreLegal }
{}

/// The law: it is legal for the script.
pub fn runs_are_legal_for_scripts()
    ensures { RunsAreLegalForScripts }
{}

/// The law: it is plain, so that its text tells it.
pub fn runs_are_plain()
    ensures { RunsArePlain }
{}

/// The law: however far the tasks of a script came, the history and the counts of calls had room for
/// the call of each line, and each fork made a task.
pub fn runs_have_room()
    ensures { RunsHaveRoom }
{}

/// The law: the words of each line of a script are known, and each wait is for the latest child that
/// its task forked and did not wait for.
pub fn scripts_are_orderly()
    ensures { ScriptsAreOrderly }
{}

/// How many rows a task loads at most where memory is found: over all its lines, and of three texts,
/// of none, and of an empty batch.
pub fn worked_loads()
    ensures { WorkedLoads }
{}
