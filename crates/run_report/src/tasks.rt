ghost use Rattle.std.specs.Prelude.{◌≡◌, ◌==◌, position, nat_lt, IfOk, OnOk};
ghost use Rattle.std.specs.List.{list_any, position_or_len};
ghost use Rattle.record_spec.specs.Tasks.{forked as pid_forked, numbered_child as numbered_child_of, with_task, with_made_task, run_tasks as tasks_of_run};

use record_spec::NumberedTask;
use smack_base::Pid;
use std::alloc::{AllocError, Global};
use world_spec::{Call, Entry, TaskCall};

/// The pid that a call forks.
fn forked(call: &Call) -> Option<Pid>
    ensures { result ≡ pid_forked call.now }
{
    match call {
        Call::Task(TaskCall::Fork { pid }) => Some(*pid),
        _ => None,
    }
}

/// The task that an entry made, where it made one.
fn numbered_child(entry: &Entry) -> Option<NumberedTask>
    ensures { result ≡ numbered_child_of entry.now }
{
    match (forked(&entry.call), entry.reply.child()) {
        (Some(pid), Some(number)) => Some(NumberedTask { number, pid }),
        _ => None,
    }
}

fn has_number(tasks: &[NumberedTask], number: u16) -> bool
    ensures { result ≡ list_any (λ t. t.number == number) tasks.now }
{
    tasks.iter().any(|t| t.number == number)
}

fn first_above(tasks: &[NumberedTask], number: u16) -> Option<usize>
    ensures { result ≡ position (λ t. nat_lt number t.number) tasks.now }
{
    tasks.iter().position(|t| number < t.number)
}

/// Puts a task in its place by its number; of two with one number the first stays.
fn add_task(tasks: &mut Vec<NumberedTask>, task: NumberedTask) -> Result<(), AllocError>
    ensures { OnOk result (tasks.new.items ≡ with_task tasks.old.items task) }
{
    if has_number(tasks.as_slice(), task.number) {
        return Ok(());
    }
    match first_above(tasks.as_slice(), task.number) {
        Some(at) => tasks.insert(at, task)?,
        None => tasks.push(task)?,
    }
    Ok(())
}

fn add_child(tasks: &mut Vec<NumberedTask>, entry: &Entry) -> Result<(), AllocError>
    ensures { OnOk result (tasks.new.items ≡ with_made_task tasks.old.items (numbered_child_of entry.now)) }
{
    match numbered_child(entry) {
        Some(task) => add_task(tasks, task),
        None => Ok(()),
    }
}

/// The tasks of a run by rising number: the first, and those that its entries made.
pub fn run_tasks(alloc: Global, history: &[Entry]) -> Result<Vec<NumberedTask>, AllocError>
    ensures { IfOk result (λ tasks. tasks.items ≡ tasks_of_run history.now) }
{
    let mut tasks = Vec::new(alloc);
    tasks.push(NumberedTask {
        number: 0,
        pid: Pid(0),
    })?;
    for entry in history {
        add_child(&mut tasks, entry)?;
    }
    Ok(tasks)
}
