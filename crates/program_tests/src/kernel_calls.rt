ghost use Rattle.std.specs.Prelude.{◌≡◌, ◌<◌, IfOk, IfSome};
ghost use Rattle.smack_kernel.specs.Answers.{IsForked};

use label_table::Labels;
use rules_spec::READ;
use smack_base::{Label, LabelId, Modes, Pid};
use smack_kernel::{Asked, Called, Kernel, Refusal, Task, Written};
use smack_world::{Call, Reply, TaskCall, Why};
use std::alloc::AllocError;
use std::process::Abort;
use std::sync::Wait;
use std::test::Fail;

/// The predefined labels, and `A`, `B` and `Admin`, which have the numbers 5 to 7.
fn labels(rt: &(impl Abort + AllocGlobal)) -> Result<Labels, Fail> {
    let mut labels = Labels::new(rt.alloc())?;
    for name in [b"A".as_slice(), b"B", b"Admin"] {
        match Label::read(name) {
            Ok(label) => assert!(rt; labels.add(&label).is_ok()),
            Err(_) => assert!(rt; false),
        }
    }
    Ok(labels)
}

/// A new kernel, and its first task.
pub fn booted(rt: &(impl Abort + AllocGlobal)) -> Result<(Kernel, Task), Fail>
    ensures { IfOk result (λ r. r.1.table ≡ r.0.table) }
{
    let labels = labels(rt)?;
    let booted = Kernel::boot(rt.alloc(), labels)?;
    Ok(booted)
}

fn catch_up<R: AllocGlobal>(rt: &R, kernel: &Kernel, task: &mut Task) -> Result<(), AllocError>
    requires { task.old.table ≡ kernel.now.table }
    ensures { task.new.table ≡ task.old.table }
{
    kernel.catch_up(rt.alloc(), task)
}

/// Asks if `A` may read `B`.
pub fn ask<R: AllocGlobal>(rt: &R, kernel: &Kernel, task: &mut Task) -> Result<Asked, AllocError>
    requires { task.old.table ≡ kernel.now.table }
    ensures { task.new.table ≡ task.old.table }
{
    kernel.ask(rt.alloc(), task, LabelId(5), LabelId(6), READ)
}

/// A task writes a text to a file, at a kernel.
pub fn write<R: Wait + AllocGlobal>(
    rt: &R,
    kernel: &Kernel,
    task: &mut Task,
    file: &[u8],
    text: &[u8],
) -> Result<Written, AllocError>
    requires { task.old.table ≡ kernel.now.table }
    ensures { task.new.table ≡ task.old.table }
{
    kernel.write(rt, rt.alloc(), task, file, text)
}

/// Makes the call `Take`, which finds no signal.
pub fn take<R: Wait + AllocGlobal>(
    rt: &R,
    kernel: &Kernel,
    task: &mut Task,
) -> Result<Called, AllocError>
    requires { task.old.table ≡ kernel.now.table }
    ensures { task.new.table ≡ task.old.table }
{
    let call = Call::Task(TaskCall::Take);
    match kernel.call(rt, rt.alloc(), task, call) {
        Ok(called) => Ok(called),
        Err(_) => Err(AllocError),
    }
}

/// Makes the call `Fork`.
pub fn fork<R: Wait + AllocGlobal>(
    rt: &R,
    kernel: &Kernel,
    task: &mut Task,
    pid: Pid,
) -> Result<(Called, Option<Task>), AllocError>
    requires { task.old.table ≡ kernel.now.table }
    ensures same { task.new.table ≡ task.old.table }
    ensures forked { IfOk result (λ r. IsForked task.old task.new pid r.0 r.1) }
{
    kernel.fork(rt, rt.alloc(), task, pid)
}

/// The child of a fork that the task makes.
pub fn child_of<R: Wait + AllocGlobal>(rt: &R, kernel: &Kernel, parent: &mut Task) -> Option<Task>
    requires { parent.old.table ≡ kernel.now.table }
    ensures same { parent.new.table ≡ parent.old.table }
    ensures child { IfSome result (λ c. c.table ≡ parent.old.table) }
{
    let Ok((called, child)) = fork(rt, kernel, parent, Pid(1)) else {
        return None;
    };
    let Some(child) = child else {
        return None;
    };
    match called {
        Called::Entry(_) => Some(child),
        _ => None,
    }
}

/// Has another task hear all that this one has seen.
pub fn tell(kernel: &Kernel, from: &mut Task, to: &mut Task)
    requires from { from.old.table ≡ kernel.now.table }
    requires to { to.old.table ≡ kernel.now.table }
    ensures from { from.new.table ≡ from.old.table }
    ensures to { to.new.table ≡ to.old.table }
{
    let note = kernel.notice(from);
    kernel.hear(to, note);
}

/// Whether a text becomes the batch that makes this version.
pub fn publishes<R: Wait + AllocGlobal>(
    rt: &R,
    kernel: &Kernel,
    task: &mut Task,
    file: &[u8],
    text: &[u8],
    wanted: u32,
) -> bool
    requires { task.old.table ≡ kernel.now.table }
    ensures { task.new.table ≡ task.old.table }
{
    match write(rt, kernel, task, file, text) {
        Ok(Written::Batch { version }) => version == wanted,
        _ => false,
    }
}

/// Whether a text is refused in this version, for this fault.
pub fn refuses<R: Wait + AllocGlobal>(
    rt: &R,
    kernel: &Kernel,
    task: &mut Task,
    file: &[u8],
    text: &[u8],
    at: u32,
    why: Refusal,
) -> bool
    requires { task.old.table ≡ kernel.now.table }
    ensures { task.new.table ≡ task.old.table }
{
    match write(rt, kernel, task, file, text) {
        Ok(Written::Refused { version, fault }) => version == at && fault == why,
        _ => false,
    }
}

/// Whether the question if `A` may read `B` is answered in this version, and so.
pub fn answers<R: AllocGlobal>(
    rt: &R,
    kernel: &Kernel,
    task: &mut Task,
    at: u32,
    allowed: bool,
) -> bool
    requires { task.old.table ≡ kernel.now.table }
    ensures { task.new.table ≡ task.old.table }
{
    match ask(rt, kernel, task) {
        Ok(Asked::Verdict { version, verdict }) => version == at && verdict.allowed == allowed,
        _ => false,
    }
}

/// Whether `Take` is made in this version, stands at this place of the history, and answers `Again`.
pub fn enters<R: Wait + AllocGlobal>(
    rt: &R,
    kernel: &Kernel,
    task: &mut Task,
    place: u32,
    at: u32,
) -> bool
    requires { task.old.table ≡ kernel.now.table }
    ensures { task.new.table ≡ task.old.table }
{
    match take(rt, kernel, task) {
        Ok(Called::Entry(entered)) => {
            entered.place == place
                && entered.version == at
                && matches!(entered.reply, Reply::Refused(Why::Again))
        }
        _ => false,
    }
}

/// Whether the rules of a task are those of this version after it caught up.
pub fn catches_up<R: AllocGlobal>(rt: &R, kernel: &Kernel, task: &mut Task, wanted: u32) -> bool
    requires { task.old.table ≡ kernel.now.table }
    ensures { task.new.table ≡ task.old.table }
{
    catch_up(rt, kernel, task).is_ok() && task.version() == wanted
}
