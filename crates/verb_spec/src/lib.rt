//! What the verbs of scripts are: their names, the kinds of the words behind them, the calls that the
//! values of these words make, and the values that tell a call. Plain data; the definitions stand in
//! `specs/`.
//!
//! `Words` says which words are numbers, capabilities, signals, names of tasks and of files. `Kinds`
//! says which words are of a kind, and what stands behind a verb by the kinds of its words. `Values`
//! says what a word of a kind is read as, and how a value is shown. `TaskVerbs` and `TreeVerbs` have
//! for each verb of a family a row in each of four tables: its name, the kinds of its words, its call
//! from values, and the values of its call. `Verbs` puts the families together.
#![tactic(auto)]

use smack_base::{Cap, LabelId, Modes, Path, Pid};
use world_spec::{TaskVerb, TraceWay, TreeVerb};

/// The verbs of object calls, by families, as the calls come; `fork` and `exit` are not among them.
#[derive(Clone, Copy, PartialEq, Eq)]
pub enum CallVerb {
    /// A call on tasks.
    Task(TaskVerb),
    /// A call on the file tree.
    Tree(TreeVerb),
}

/// What a line of a script does: its second word. What changes the tasks of a script has a verb of
/// its own; all else that makes an object call is a `Call`.
#[derive(Clone, Copy, PartialEq, Eq)]
pub enum Verb {
    /// `write FILE N`: writes the next N lines to a smackfs file.
    Write,
    /// `ask LABEL LABEL MODES`: asks whether a subject has modes on an object.
    Ask,
    /// `wait NAME`: waits for the caller's latest child; no object call.
    Wait,
    /// `fork NAME`: makes a task with a copy of the caller's credentials.
    Fork,
    /// `exit`: ends the calling task.
    Exit,
    /// Another object call.
    Call(CallVerb),
}

/// What a word behind a verb may be.
#[derive(Clone, Copy, PartialEq, Eq)]
pub enum WordKind {
    /// A label.
    Label,
    /// A set of access modes.
    Modes,
    /// The name of a smackfs file, to which the text of the line is written.
    File,
    /// How many lines behind the line are its text: a decimal number up to 4,294,967,295.
    Lines,
    /// A decimal number up to 4,294,967,295.
    Number,
    /// A path.
    Path,
    /// The name of a capability.
    Capability,
    /// The name of a task that is not there yet: 1 to 16 letters, digits and underscores.
    NewTask,
    /// The name of a task that is there.
    KnownTask,
    /// The name of the latest child of the task that it has not waited for.
    Child,
    /// The number of a signal, from 1 to 31.
    Signal,
    /// How a task is traced: `read` or `attach`.
    TraceWay,
}

/// What a word is read as.
#[derive(Drop)]
pub enum Value {
    /// The label of this id.
    Label(LabelId),
    /// Access modes.
    Modes(Modes),
    /// A number.
    Number(u32),
    /// A path.
    Path(Path),
    /// A capability.
    Capability(Cap),
    /// The task of this pid.
    Task(Pid),
    /// A signal, from 1 to 31.
    Signal(u8),
    /// A way of tracing.
    TraceWay(TraceWay),
}
