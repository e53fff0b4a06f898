ghost use Rattle.std.specs.Prelude.{◌≡◌};

use crate::kernel_calls::{
    answers, ask, booted, catches_up, child_of, enters, publishes, refuses, tell,
};
use smack_kernel::{Asked, Kernel, Refusal, Task};
use std::process::Abort;
use std::sync::Wait;
use std::test::Fail;

/// Whether a task without CAP_MAC_ADMIN in the version that its own text made writes no rules.
fn onlycap_takes_the_privilege<R: Wait + AllocGlobal>(
    rt: &R,
    kernel: &Kernel,
    task: &mut Task,
) -> bool
    requires { task.old.table ≡ kernel.now.table }
    ensures { task.new.table ≡ task.old.table }
{
    publishes(rt, kernel, task, b"onlycap", b"Admin\n", 1)
        && refuses(
            rt,
            kernel,
            task,
            b"load2",
            b"A B r\n",
            1,
            Refusal::NotPrivileged,
        )
}

#[test]
fn a_task_that_lost_its_privilege(rt: HostRuntime) -> Result<(), Fail> {
    let (kernel, mut task) = booted(&rt)?;
    assert!(rt; onlycap_takes_the_privilege(&rt, &kernel, &mut task));
    Ok(())
}

#[test]
fn a_batch_without_writes(rt: HostRuntime) -> Result<(), Fail> {
    let (kernel, mut task) = booted(&rt)?;
    assert!(rt; publishes(&rt, &kernel, &mut task, b"load2", b"", 1));
    Ok(())
}

/// Whether a text of two lines, which is three rows, makes this version.
fn publishes_two<R: Wait + AllocGlobal>(
    rt: &R,
    kernel: &Kernel,
    task: &mut Task,
    wanted: u32,
) -> bool
    requires { task.old.table ≡ kernel.now.table }
    ensures { task.new.table ≡ task.old.table }
{
    publishes(rt, kernel, task, b"load2", b"A B r\nB A r\n", wanted)
}

/// Whether three texts make the versions 1 to 3.
fn publishes_three<R: Wait + AllocGlobal>(rt: &R, kernel: &Kernel, task: &mut Task) -> bool
    requires { task.old.table ≡ kernel.now.table }
    ensures { task.new.table ≡ task.old.table }
{
    publishes_two(rt, kernel, task, 1)
        && publishes_two(rt, kernel, task, 2)
        && publishes_two(rt, kernel, task, 3)
}

/// Whether the question if `A` may read `B` is answered in version 0 or in version 1.
fn answers_in_either<R: AllocGlobal>(rt: &R, kernel: &Kernel, task: &mut Task) -> bool
    requires { task.old.table ≡ kernel.now.table }
    ensures { task.new.table ≡ task.old.table }
{
    match ask(rt, kernel, task) {
        Ok(Asked::Verdict { version, verdict }) => {
            version <= 1 && verdict.allowed == (version == 1)
        }
        _ => false,
    }
}

/// The child has heard nothing of a batch: its contract lets it answer in either version.
fn a_child_that_heard_nothing<R: Wait + AllocGlobal>(
    rt: &R,
    kernel: &Kernel,
    parent: &mut Task,
    child: &mut Task,
) -> bool
    requires { (parent.old.table ≡ kernel.now.table) × (child.old.table ≡ kernel.now.table) }
    ensures { (parent.new.table ≡ parent.old.table) × (child.new.table ≡ child.old.table) }
{
    publishes(rt, kernel, parent, b"load2", b"A B r\n", 1) && answers_in_either(rt, kernel, child)
}

fn a_child_that_heard<R: Wait + AllocGlobal>(
    rt: &R,
    kernel: &Kernel,
    parent: &mut Task,
    child: &mut Task,
) -> bool
    requires { (parent.old.table ≡ kernel.now.table) × (child.old.table ≡ kernel.now.table) }
    ensures { (parent.new.table ≡ parent.old.table) × (child.new.table ≡ child.old.table) }
{
    let published = publishes(rt, kernel, parent, b"load2", b"A B r\n", 1);
    tell(kernel, parent, child);
    published && answers(rt, kernel, child, 1, true)
}

/// The child has heard nothing, but its call comes after a call in version 1.
fn a_later_call<R: Wait + AllocGlobal>(
    rt: &R,
    kernel: &Kernel,
    parent: &mut Task,
    child: &mut Task,
) -> bool
    requires { (parent.old.table ≡ kernel.now.table) × (child.old.table ≡ kernel.now.table) }
    ensures { (parent.new.table ≡ parent.old.table) × (child.new.table ≡ child.old.table) }
{
    publishes(rt, kernel, parent, b"load2", b"A B r\n", 1)
        && enters(rt, kernel, parent, 2, 1)
        && enters(rt, kernel, child, 3, 1)
}

/// Whether two bad texts are refused in version 0, and are counted.
fn refuses_bad_texts<R: Wait + AllocGlobal>(rt: &R, kernel: &Kernel, task: &mut Task) -> bool
    requires { task.old.table ≡ kernel.now.table }
    ensures { task.new.table ≡ task.old.table }
{
    let unknown = Refusal::UnknownLabel { line: 2 };
    let no_file = Refusal::NoSuchFile;
    refuses(rt, kernel, task, b"load2", b"A B r\nA D r\n", 0, unknown)
        && refuses(rt, kernel, task, b"load3", b"A B r\n", 0, no_file)
        && task.made() == 2
}

/// A bad text is refused in the version of the task's rules, which are those of its fork: it does
/// not come to the pen, with which the task would see the published batch.
fn a_bad_text<R: Wait + AllocGlobal>(
    rt: &R,
    kernel: &Kernel,
    parent: &mut Task,
    child: &mut Task,
) -> bool
    requires { (parent.old.table ≡ kernel.now.table) × (child.old.table ≡ kernel.now.table) }
    ensures { (parent.new.table ≡ parent.old.table) × (child.new.table ≡ child.old.table) }
{
    publishes(rt, kernel, parent, b"load2", b"A B r\n", 1)
        && refuses_bad_texts(rt, kernel, child)
        && publishes(rt, kernel, child, b"load2", b"", 2)
}

fn a_child_catches_up<R: Wait + AllocGlobal>(
    rt: &R,
    kernel: &Kernel,
    parent: &mut Task,
    child: &mut Task,
) -> bool
    requires { (parent.old.table ≡ kernel.now.table) × (child.old.table ≡ kernel.now.table) }
    ensures { (parent.new.table ≡ parent.old.table) × (child.new.table ≡ child.old.table) }
{
    publishes_three(rt, kernel, parent)
        && catches_up(rt, kernel, child, 3)
        && publishes(rt, kernel, parent, b"load2", b"", 4)
        && catches_up(rt, kernel, child, 4)
        && child.made() == 0
}

fn a_child_asks_first<R: Wait + AllocGlobal>(
    rt: &R,
    kernel: &Kernel,
    parent: &mut Task,
    child: &mut Task,
) -> bool
    requires { (parent.old.table ≡ kernel.now.table) × (child.old.table ≡ kernel.now.table) }
    ensures { (parent.new.table ≡ parent.old.table) × (child.new.table ≡ child.old.table) }
{
    publishes_three(rt, kernel, parent) && answers(rt, kernel, child, 3, true)
}

/// A child that heard has taken no rules before it asks.
fn a_child_hears_first<R: Wait + AllocGlobal>(
    rt: &R,
    kernel: &Kernel,
    parent: &mut Task,
    child: &mut Task,
) -> bool
    requires { (parent.old.table ≡ kernel.now.table) × (child.old.table ≡ kernel.now.table) }
    ensures { (parent.new.table ≡ parent.old.table) × (child.new.table ≡ child.old.table) }
{
    let published = publishes_three(rt, kernel, parent);
    tell(kernel, parent, child);
    published && child.version() == 0 && answers(rt, kernel, child, 3, true)
}

/// What a parent and its child do.
#[derive(Clone, Copy)]
enum Family {
    HeardNothing,
    Heard,
    LaterCall,
    BadText,
    CatchesUp,
    AsksFirst,
    HearsFirst,
}

fn is_so<R: Wait + AllocGlobal>(
    rt: &R,
    kernel: &Kernel,
    parent: &mut Task,
    child: &mut Task,
    case: Family,
) -> bool
    requires { (parent.old.table ≡ kernel.now.table) × (child.old.table ≡ kernel.now.table) }
{
    match case {
        Family::HeardNothing => a_child_that_heard_nothing(rt, kernel, parent, child),
        Family::Heard => a_child_that_heard(rt, kernel, parent, child),
        Family::LaterCall => a_later_call(rt, kernel, parent, child),
        Family::BadText => a_bad_text(rt, kernel, parent, child),
        Family::CatchesUp => a_child_catches_up(rt, kernel, parent, child),
        Family::AsksFirst => a_child_asks_first(rt, kernel, parent, child),
        Family::HearsFirst => a_child_hears_first(rt, kernel, parent, child),
    }
}

/// Whether a case holds for the first task of a kernel and its child.
fn holds<R: Wait + Abort + AllocGlobal>(rt: &R, case: Family) -> Result<bool, Fail> {
    let (kernel, mut parent) = booted(rt)?;
    match child_of(rt, &kernel, &mut parent) {
        Some(mut child) => Ok(is_so(rt, &kernel, &mut parent, &mut child, case)),
        None => Ok(false),
    }
}

#[test]
fn a_parent_and_its_child(rt: HostRuntime) -> Result<(), Fail> {
    assert!(rt; holds(&rt, Family::HeardNothing)? && holds(&rt, Family::Heard)?);
    assert!(rt; holds(&rt, Family::LaterCall)? && holds(&rt, Family::BadText)?);
    assert!(rt; holds(&rt, Family::CatchesUp)? && holds(&rt, Family::AsksFirst)?);
    assert!(rt; holds(&rt, Family::HearsFirst)?);
    Ok(())
}
