//! What the simulated kernel does: the calls that tasks make, the world that they act on, and the
//! step from one world to the next. Plain data; the definitions stand in `specs/`.
//!
//! A call of a task is a list of parts and then an effect. The parts are refusals and questions, in
//! order (`Questions`). The first refusal that applies, or the first question that is denied, is
//! its reply, and the world stays as it was. Where there is none, the call has its effect
//! (`Steps`). Each family says of its calls what their parts are and what they leave (`TaskCalls`,
//! `TreeCalls`). Each call leaves an entry in the trail, and `Replays` takes the entries of a trail one
//! after another from the first world.
#![tactic(auto)]

ghost use Rattle.std.specs.Prelude.{◌≡◌};
ghost use Rattle.world_spec.specs.Replies.{answered, child_of};

mod tasks;
mod trees;
mod walks;

use rules_spec::Checks;
use smack_base::{Bytes, Duplicate, LabelId, Modes, Sequence};
use std::alloc::AllocError;
pub use tasks::{TaskCall, TaskVerb, TraceWay};
pub use tree_spec::{ListedNames, Listing};
pub use trees::{TreeCall, TreeVerb};
pub use walks::Walker;

/// A file of the root directory.
#[derive(Drop)]
pub struct FileRow {
    pub name: Bytes,
    pub label: LabelId,
}

/// A call that a task makes, by families.
#[derive(Drop)]
pub enum Call {
    Task(TaskCall),
    Tree(TreeCall),
}

impl Duplicate for Call {
    fn copy(&self) -> Result<Call, AllocError> {
        match self {
            Call::Task(call) => Ok(Call::Task(call.copy()?)),
            Call::Tree(call) => Ok(Call::Tree(call.copy()?)),
        }
    }
}

/// What a call asks before it is done.
#[derive(Clone, Copy, PartialEq, Eq)]
pub enum Question {
    /// A subject with the label `s` asks for modes on an object with the label `o`, and is judged
    /// with the credentials of the task of number `by`.
    Full {
        by: u16,
        s: LabelId,
        o: LabelId,
        m: Modes,
    },
    /// The task of number `by` asks to attach by ptrace to a task with the label `o`.
    Attach {
        by: u16,
        o: LabelId,
    },
}

/// A part of a call, before its effect.
#[derive(Clone, Copy, PartialEq, Eq)]
pub enum Part {
    /// The call is refused where something holds.
    Refuses { holds: bool, why: Why },
    /// The call is denied where the verdict of the question is.
    Asks { question: Question },
}

/// Why a call was refused.
#[derive(Clone, Copy, PartialEq, Eq)]
pub enum Why {
    /// The name is taken; for a pid, a task has or had it.
    Exists,
    /// The path is `/`.
    IsRoot,
    /// A file stands where a directory is wanted.
    NotDirectory,
    /// The caller lacks the capability.
    NotPrivileged,
    /// The caller is not live, or no live task has the pid.
    NoSuchTask,
    /// There is nothing of this name.
    NoSuchName,
    /// A number is not in its range.
    Range,
    /// There is nothing yet, and there may be later.
    Again,
    /// This many tasks were made, the most.
    TasksFull { limit: u32 },
    /// More self rules than this would stand, each of a pair of its own.
    SelfFull { limit: u32 },
    /// The list has more labels than this.
    RelabelFull { limit: u32 },
    /// The tree has this many nodes, its most.
    TreeFull { limit: u32 },
}

/// What a call says that goes through and makes no task.
#[derive(Drop)]
pub enum Answer {
    /// It was done.
    Ok,
    /// The signal that was taken.
    Signal(u8),
    /// How many names there are, and some of them.
    Names { count: u32, names: Listing },
}

impl Answer {
    /// The reply that gives the answer.
    pub fn reply(self) -> Reply
        ensures { result ≡ answered self }
    {
        match self {
            Answer::Ok => Reply::Ok,
            Answer::Signal(sig) => Reply::Signal(sig),
            Answer::Names { count, names } => Reply::Names { count, names },
        }
    }
}

/// What came of a call.
#[derive(Drop)]
pub enum Reply {
    /// It was done.
    Ok,
    /// The number of the task that was made.
    Child(u16),
    /// The signal that was taken.
    Signal(u8),
    /// How many names there are, and some of them.
    Names { count: u32, names: Listing },
    /// The question of the last check was denied, by this case.
    Denied(u8),
    /// It was refused.
    Refused(Why),
}

impl Reply {
    /// The number of the task that a call with this reply made.
    pub fn child(&self) -> Option<u16>
        ensures { result ≡ child_of self.now }
    {
        match self {
            Reply::Child(task) => Some(*task),
            _ => None,
        }
    }
}

impl Duplicate for Reply {
    fn copy(&self) -> Result<Reply, AllocError> {
        match self {
            Reply::Ok => Ok(Reply::Ok),
            Reply::Child(task) => Ok(Reply::Child(*task)),
            Reply::Signal(sig) => Ok(Reply::Signal(*sig)),
            Reply::Names { count, names } => Ok(Reply::Names {
                count: *count,
                names: names.copy()?,
            }),
            Reply::Denied(case) => Ok(Reply::Denied(*case)),
            Reply::Refused(why) => Ok(Reply::Refused(*why)),
        }
    }
}

/// A call that was made, and what came of it.
#[derive(Drop)]
pub struct Entry {
    /// The number of the task, from 0.
    pub task: u16,
    /// The number of the task's call, from 1.
    pub seq: u32,
    /// The call.
    pub call: Call,
    /// The rule version that its questions were judged in.
    pub version: u32,
    /// The verdicts in the order in which the questions were asked; a denial is the last.
    pub checks: Checks,
    /// The answer.
    pub reply: Reply,
}

impl Duplicate for Entry {
    fn copy(&self) -> Result<Entry, AllocError> {
        Ok(Entry {
            task: self.task,
            seq: self.seq,
            call: self.call.copy()?,
            version: self.version,
            checks: self.checks.copy()?,
            reply: self.reply.copy()?,
        })
    }
}

/// Entries in the order in which the calls were made.
pub type Trail = Sequence<Entry>;
