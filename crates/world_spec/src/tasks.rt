use smack_base::{Cap, Duplicate, Ids, LabelId, Pairs, Pid};
use std::alloc::AllocError;

/// The verbs of calls on tasks that leave the tasks of a script as they are.
#[derive(Clone, Copy, PartialEq, Eq)]
pub enum TaskVerb {
    /// `relabel LABEL`: takes another label.
    Relabel,
    /// `drop CAP`: gives a capability up.
    Drop,
    /// `kill NAME SIG`: makes a signal of a task pending.
    Kill,
    /// `take`: takes the least pending signal of the caller.
    Take,
    /// `trace read NAME`, `trace attach NAME`: reads a task, or attaches to it, by ptrace.
    Trace,
}

/// How `trace` asks for a task.
#[derive(Clone, Copy, PartialEq, Eq)]
pub enum TraceWay {
    /// `read`: looks at it.
    Read,
    /// `attach`: takes control of it.
    Attach,
}

/// A call on tasks: on the calling task, or on the live task of a pid.
#[derive(Drop)]
pub enum TaskCall {
    /// Makes a task with this pid, which no task ever had. It has a copy of its parent's
    /// credentials, and no signal waits for it.
    Fork { pid: Pid },
    /// The calling task is not live any more.
    Exit,
    /// Takes another label (Smack guide, "relabel-self").
    Relabel { l: LabelId },
    /// Gives a capability up.
    DropCap { cap: Cap },
    /// Adds rules that restrict the calling task (Smack guide, "load-self2").
    SelfRules { rules: Pairs },
    /// Replaces the list of labels that the calling task may take (Smack guide, "relabel-self").
    Relabels { labels: Ids },
    /// Sends a signal, from 1 to 31, to a task.
    Kill { pid: Pid, sig: u8 },
    /// Takes the least signal that waits for the calling task.
    Take,
    /// Reads a task by ptrace.
    TraceRead { pid: Pid },
    /// Attaches to a task by ptrace.
    TraceAttach { pid: Pid },
}

impl Duplicate for TaskCall {
    fn copy(&self) -> Result<TaskCall, AllocError> {
        match self {
            TaskCall::Fork { pid } => Ok(TaskCall::Fork { pid: *pid }),
            TaskCall::Exit => Ok(TaskCall::Exit),
            TaskCall::Relabel { l } => Ok(TaskCall::Relabel { l: *l }),
            TaskCall::DropCap { cap } => Ok(TaskCall::DropCap { cap: *cap }),
            TaskCall::SelfRules { rules } => Ok(TaskCall::SelfRules {
                rules: rules.copy()?,
            }),
            TaskCall::Relabels { labels } => Ok(TaskCall::Relabels {
                labels: labels.copy()?,
            }),
            TaskCall::Kill { pid, sig } => Ok(TaskCall::Kill {
                pid: *pid,
                sig: *sig,
            }),
            TaskCall::Take => Ok(TaskCall::Take),
            TaskCall::TraceRead { pid } => Ok(TaskCall::TraceRead { pid: *pid }),
            TaskCall::TraceAttach { pid } => Ok(TaskCall::TraceAttach { pid: *pid }),
        }
    }
}
