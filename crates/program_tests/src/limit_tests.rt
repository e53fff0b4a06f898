ghost use Rattle.std.specs.Prelude.{◌≡◌};

use crate::kernel_calls::{
    answers, ask, booted, catches_up, child_of, enters, fork, publishes, refuses, take, tell, write,
};
use rule_fold::RuleIndex;
use smack_base::{Cap, LabelId, Pid};
use smack_kernel::{Asked, Called, Kernel, Refusal, Task, Written};
use smack_world::{Call, Reply, Stepped, TaskCall, Why, World};
use std::alloc::{AllocError, Global};
use std::process::Abort;
use std::sync::Wait;
use std::test::Fail;

/// A text of so many lines of one label, two bytes each.
fn revokes(alloc: Global, lines: u32) -> Result<Vec<u8>, AllocError> {
    let mut text = Vec::new(alloc);
    for _ in 0..lines {
        text.push(b'_')?;
        text.push(b'\n')?;
    }
    Ok(text)
}

/// Whether so many texts, each of so many revokes, all become batches.
fn fills<R: Wait + AllocGlobal>(
    rt: &R,
    kernel: &Kernel,
    task: &mut Task,
    texts: u32,
    lines: u32,
) -> bool
    requires { task.old.table ≡ kernel.now.table }
    ensures { task.new.table ≡ task.old.table }
{
    let Ok(text) = revokes(rt.alloc(), lines) else {
        return false;
    };
    let mut all = true;
    for _ in 0..texts {
        let written = write(rt, kernel, task, b"revoke-subject", text.as_slice());
        all = all && matches!(written, Ok(Written::Batch { version: _ }));
    }
    all
}

/// Whether so many revokes are too many for a journal of so many rows, in this version.
fn overfills<R: Wait + AllocGlobal>(
    rt: &R,
    kernel: &Kernel,
    task: &mut Task,
    text: &[u8],
    at: u32,
    rows: u32,
) -> bool
    requires { task.old.table ≡ kernel.now.table }
    ensures { task.new.table ≡ task.old.table }
{
    let full = Refusal::JournalFull { rows };
    refuses(rt, kernel, task, b"revoke-subject", text, at, full)
}

/// 31 batches of 32,767 writes and one of 32,761 are, with a row more for each, 1,048,570 rows. Six
/// writes are then too many, and five fit.
fn fills_the_journal<R: Wait + AllocGlobal>(rt: &R, kernel: &Kernel, task: &mut Task) -> bool
    requires { task.old.table ≡ kernel.now.table }
    ensures { task.new.table ≡ task.old.table }
{
    fills(rt, kernel, task, 31, 32_767)
        && fills(rt, kernel, task, 1, 32_761)
        && overfills(rt, kernel, task, b"_\n_\n_\n_\n_\n_\n", 32, 1_048_570)
        && publishes(rt, kernel, task, b"revoke-subject", b"_\n_\n_\n_\n_\n", 33)
        && overfills(rt, kernel, task, b"", 33, 1_048_576)
}

/// Whether so many calls become entries, each with no signal to take.
fn takes<R: Wait + AllocGlobal>(rt: &R, kernel: &Kernel, task: &mut Task, calls: u32) -> bool
    requires { task.old.table ≡ kernel.now.table }
    ensures { task.new.table ≡ task.old.table }
{
    let mut all = true;
    for place in 0..calls {
        all = enters(rt, kernel, task, place + 1, 0) && all;
    }
    all
}

/// Whether no call is made any more for want of an entry: no `Take`, no text of the task's own
/// rules, no fork.
fn is_full<R: Wait + AllocGlobal>(rt: &R, kernel: &Kernel, task: &mut Task) -> bool
    requires { task.old.table ≡ kernel.now.table }
    ensures { task.new.table ≡ task.old.table }
{
    let called = matches!(
        take(rt, kernel, task),
        Ok(Called::TrailFull(Call::Task(TaskCall::Take)))
    );
    let written = matches!(
        write(rt, kernel, task, b"load-self2", b"A B r\n"),
        Ok(Written::TrailFull)
    );
    called && written && forks_no_more(rt, kernel, task)
}

/// Whether a fork comes back for want of an entry, without a child.
fn forks_no_more<R: Wait + AllocGlobal>(rt: &R, kernel: &Kernel, task: &mut Task) -> bool
    requires { task.old.table ≡ kernel.now.table }
    ensures { task.new.table ≡ task.old.table }
{
    matches!(
        fork(rt, kernel, task, Pid(1)),
        Ok((
            Called::TrailFull(Call::Task(TaskCall::Fork { pid: Pid(1) })),
            None
        ))
    )
}

/// Whether a task whose kernel has a full history still writes rules, catches up and asks.
fn fills_the_history<R: Wait + AllocGlobal>(rt: &R, kernel: &Kernel, task: &mut Task) -> bool
    requires { task.old.table ≡ kernel.now.table }
    ensures { task.new.table ≡ task.old.table }
{
    takes(rt, kernel, task, 131_072)
        && is_full(rt, kernel, task)
        && task.made() == 131_072
        && publishes(rt, kernel, task, b"load2", b"A B r\n", 1)
        && catches_up(rt, kernel, task, 1)
        && answers(rt, kernel, task, 1, true)
        && task.made() == 131_074
}

/// Whether so many questions are answered in version 0.
fn asks<R: AllocGlobal>(rt: &R, kernel: &Kernel, task: &mut Task, calls: u32) -> bool
    requires { task.old.table ≡ kernel.now.table }
    ensures { task.new.table ≡ task.old.table }
{
    let mut all = true;
    for _ in 0..calls {
        all = answers(rt, kernel, task, 0, false) && all;
    }
    all
}

/// Whether a task that made all its calls makes no object call: no `Take`, no fork.
fn makes_no_object_call<R: Wait + AllocGlobal>(rt: &R, kernel: &Kernel, task: &mut Task) -> bool
    requires { task.old.table ≡ kernel.now.table }
    ensures { task.new.table ≡ task.old.table }
{
    let called = matches!(
        take(rt, kernel, task),
        Ok(Called::SeqFull(Call::Task(TaskCall::Take)))
    );
    let forked = matches!(
        fork(rt, kernel, task, Pid(1)),
        Ok((
            Called::SeqFull(Call::Task(TaskCall::Fork { pid: Pid(1) })),
            None
        ))
    );
    called && forked
}

/// Whether a task has made all its calls: it makes none of any kind.
fn is_ended<R: Wait + AllocGlobal>(rt: &R, kernel: &Kernel, task: &mut Task) -> bool
    requires { task.old.table ≡ kernel.now.table }
    ensures { task.new.table ≡ task.old.table }
{
    let asked = matches!(ask(rt, kernel, task), Ok(Asked::SeqFull));
    let written = matches!(write(rt, kernel, task, b"load2", b""), Ok(Written::SeqFull));
    asked && written && kernel.mark(task).is_err() && makes_no_object_call(rt, kernel, task)
}

/// Whether a task asks as often as it may, and makes no call after.
fn makes_all_calls<R: Wait + AllocGlobal>(rt: &R, kernel: &Kernel, task: &mut Task) -> bool
    requires { task.old.table ≡ kernel.now.table }
    ensures { task.new.table ≡ task.old.table }
{
    asks(rt, kernel, task, 1_048_575) && is_ended(rt, kernel, task) && task.made() == 1_048_575
}

/// Whether a child that has made all its calls still hears, catches up and tells.
fn hears_after_its_last_call<R: Wait + AllocGlobal>(
    rt: &R,
    kernel: &Kernel,
    parent: &mut Task,
    child: &mut Task,
) -> bool
    requires { (parent.old.table ≡ kernel.now.table) × (child.old.table ≡ kernel.now.table) }
    ensures { (parent.new.table ≡ parent.old.table) × (child.new.table ≡ child.old.table) }
{
    let ended = makes_all_calls(rt, kernel, child);
    let published = publishes(rt, kernel, parent, b"load2", b"A B r\n", 1);
    tell(kernel, parent, child);
    let caught_up = catches_up(rt, kernel, child, 1);
    tell(kernel, child, parent);
    ended
        && published
        && caught_up
        && child.made() == 1_048_575
        && answers(rt, kernel, parent, 1, true)
}

#[test]
fn a_full_journal(rt: HostRuntime) -> Result<(), Fail> {
    let (kernel, mut task) = booted(&rt)?;
    assert!(rt; fills_the_journal(&rt, &kernel, &mut task));
    Ok(())
}

#[test]
fn a_full_history(rt: HostRuntime) -> Result<(), Fail> {
    let (kernel, mut task) = booted(&rt)?;
    assert!(rt; fills_the_history(&rt, &kernel, &mut task));
    Ok(())
}

/// Whether the child of a kernel's first task makes no call after its last one.
fn ends_a_child<R: Wait + Abort + AllocGlobal>(rt: &R) -> Result<bool, Fail> {
    let (kernel, mut parent) = booted(rt)?;
    match child_of(rt, &kernel, &mut parent) {
        Some(mut child) => Ok(hears_after_its_last_call(rt, &kernel, &mut parent, &mut child)),
        None => Ok(false),
    }
}

#[test]
fn a_full_count_of_calls(rt: HostRuntime) -> Result<(), Fail> {
    assert!(rt; ends_a_child(&rt)?);
    Ok(())
}

/// The call that a task may not make without CAP_MAC_ADMIN.
fn relabel() -> Call {
    Call::Task(TaskCall::Relabel { l: LabelId(6) })
}

/// Whether the first task of a new world gives CAP_MAC_ADMIN up, by its first call.
fn gives_up(alloc: Global, world: &mut World, rules: &RuleIndex) -> bool {
    let call = Call::Task(TaskCall::DropCap { cap: Cap::MacAdmin });
    matches!(
        world.step(alloc, rules, 0, 1, call),
        Ok(Stepped::Entered {
            place: 1,
            checks: _,
            reply: Reply::Ok,
            creds: _
        })
    )
}

/// Whether the next 131,071 calls are refused, and each leaves an entry.
fn refuses_all(alloc: Global, world: &mut World, rules: &RuleIndex) -> bool {
    let mut all = true;
    for seq in 2..131_073u32 {
        let stepped = world.step(alloc, rules, 0, seq, relabel());
        let refused = matches!(
            stepped,
            Ok(Stepped::Entered {
                place: _,
                checks: _,
                reply: Reply::Refused(Why::NotPrivileged),
                creds: _
            })
        );
        all = all && refused;
    }
    all
}

/// Whether the call comes back for want of an entry.
fn finds_no_room(alloc: Global, world: &mut World, rules: &RuleIndex) -> bool {
    matches!(
        world.step(alloc, rules, 0, 131_073, relabel()),
        Ok(Stepped::TrailFull(Call::Task(TaskCall::Relabel { l: LabelId(6) })))
    )
}

#[test]
fn a_full_trail(rt: HostRuntime) -> Result<(), Fail> {
    let rules = RuleIndex::new(rt.alloc())?;
    let mut world = World::new(rt.alloc())?;
    assert!(rt; gives_up(rt.alloc(), &mut world, &rules));
    assert!(rt; refuses_all(rt.alloc(), &mut world, &rules));
    assert!(rt; finds_no_room(rt.alloc(), &mut world, &rules));
    assert!(rt; world.entries() == 131_072);
    Ok(())
}
