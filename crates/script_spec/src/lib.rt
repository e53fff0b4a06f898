//! What scripts mean: their lines, their tasks, and the grammar. Plain data; the definitions stand in
//! `specs/`.
//!
//! `Lines` says what a call of a script is, with its labels and its rows of a journal, by the kinds of
//! its words. `Tasks` reads off the calls so far which
//! tasks there are, which of them are live, and which may be waited for. `Causes` says what is wrong
//! with a line. `Grammar` says which lists of bytes are a script, and for any other list which line
//! is the first bad one, and why.
#![tactic(auto)]

/// Why a line is not in the grammar of scripts, the first that applies: `Word { k: 1 }`, `Verb`,
/// `NotBuilt`, `Words`, `Word`, `Text`, `Task`, `Name`, `Wait`; a path that is not built comes behind
/// the kinds of the words.
#[derive(Clone, Copy, PartialEq, Eq)]
pub enum Cause {
    /// The task does not run here: it is not `init` and no line above forks it, or it has exited, or
    /// it or a task that it descends from was waited for.
    Task,
    /// The second word is missing, or it is no verb.
    Verb,
    /// The verb takes another number of words.
    Words,
    /// The k-th word of the line, from 1, is not of its kind.
    Word { k: u32 },
    /// Fewer lines of text follow than the line says.
    Text,
    /// The task that is named cannot be named here: `fork` names one that is already there, or
    /// `kill` or `trace` names one that is not.
    Name,
    /// `wait` does not name the latest child of the task that it has not waited for.
    Wait,
    /// The verb, the file or the path is of a kind that this program does not have yet.
    NotBuilt,
}

/// The limit that an input exceeds.
#[derive(Clone, Copy, PartialEq, Eq)]
pub enum What {
    /// Bytes of the input.
    Bytes,
    /// Lines.
    Lines,
    /// Tasks ever made.
    Tasks,
    /// Labels, with the five predefined ones.
    Labels,
    /// Bytes of the text of one write.
    Text,
    /// Rows of the journal: for each accepted text its rule writes and one.
    Rows,
}

/// Why bytes are no script.
#[derive(Clone, Copy, PartialEq, Eq)]
pub enum ScriptFault {
    /// The first bad line, from 1, and why it is bad.
    Malformed { line: u32, cause: Cause },
    /// The limit that is exceeded first.
    TooLarge { what: What },
    /// Want of memory.
    Memory,
}
