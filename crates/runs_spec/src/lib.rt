//! What a task of a script did at a kernel. Definitions and laws alone: plain data in `specs/`, how
//! runs are put together in `proofs/`.
//!
//! `Scripts` has the lines of a script task. `Deeds` says what one call of a task is, which line it
//! is, where it stands in a journal and a history, and that it is lawful there. A `TaskRun` (`Runs`) is the
//! calls of a task in their order with the runs of its children beside them; `WentOver` says what a
//! task's run over some lines makes of the task, and `Ran` what a worker that may stop promises. By
//! `Over` no call is judged in a version older than its task had seen or been told of. `Meetings`
//! is where a task and its child come together again. `Stops` says what is so where one stopped: that
//! the history is full while some lines have no call, that a task has made all calls that it may, or
//! that a fork made no task. `Orders` says which lines of a task can be run: each wait is for the
//! latest child that they forked and did not wait for.
//!
//! Stands on smack_kernel for what a task is and what each call does to it, and on legal_spec for
//! what a line may become.
#![tactic(auto)]
