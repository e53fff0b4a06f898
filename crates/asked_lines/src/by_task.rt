ghost use Rattle.std.specs.Prelude.{◌≡◌, ◌≤◌, ◌<◌, ◌++◌, [], length, fold, IfOk, OnOk, OnErr};
ghost use Rattle.replay_spec.specs.Replays.{with_asked};
ghost use Rattle.asked_lines.specs.Blocks.{AreOf};
ghost use Rattle.asked_lines.specs.ByTask.{all_lines, list_count, AreByTask};

use crate::blocks::Block;
use record_spec::{AskedLine, AskedLines};
use std::alloc::{AllocError, Global};
use std::marker::Model;
use std::mem::replace;

/// How many lists there are at least: one for each task that a run can have, and one more.
const LISTS: usize = 65;

/// Asked lines by rising task number, those of one task in the order in which they came.
#[derive(Drop)]
pub struct AskedByTask {
    lists: Vec<AskedLines>,
}

impl Model for AskedByTask {
    ghost use Rattle.std.specs.Prelude.{◌≡◌, ◌≤◌, List, length};
    ghost use Rattle.record_spec.specs.declared.AskedLine.{AskedLine};
    ghost use Rattle.asked_lines.specs.ByTask.{all_lines, list_count, AreByTask};

    ghost Value = { List AskedLine };

    ghost view = { λ a. all_lines a.lists.items };

    ghost invariant = { λ a. (list_count ≤ length a.lists.items) × AreByTask 0 a.lists.items };
}

impl AskedByTask {
    /// No line.
    pub fn new(alloc: Global) -> Result<AskedByTask, AllocError>
        ensures { IfOk result (λ asked. asked ≡ []) }
    {
        let mut lists = Vec::new(alloc);
        for _ in 0..LISTS {
            lists.push(AskedLines::new(alloc))?;
        }
        Ok(AskedByTask { lists })
    }

    /// Puts a line behind those of its task, whose number is at most 64. On want of memory nothing
    /// changes.
    pub fn put(&mut self, line: AskedLine) -> Result<(), AllocError>
        requires { line.task < list_count }
        ensures ok { OnOk result (self.new ≡ with_asked self.old line) }
        ensures err { OnErr result (self.new ≡ self.old) }
    {
        self.lists[line.task as usize].push(line)
    }

    /// Puts the lines of a block behind those of its task. Where its task has no lines yet they stay
    /// where they are.
    pub(crate) fn put_block(&mut self, block: Block) -> Result<(), AllocError>
        requires lines { AreOf block.task block.lines }
        ensures { OnOk result (self.new ≡ fold with_asked self.old block.lines) }
    {
        let Block { task, lines } = block;
        reach(&mut self.lists, task)?;
        append(&mut self.lists[task as usize], lines)
    }

    /// The lines as one list. Where one task has them all they stay where they are.
    pub fn into_lines(self, alloc: Global) -> Result<AskedLines, AllocError>
        ensures { IfOk result (λ lines. lines ≡ self) }
    {
        let AskedByTask { lists } = self;
        let count = line_count(lists.as_slice());
        let mut lines = AskedLines::new(alloc);
        for list in lists {
            append(&mut lines, list)?;
            lines.reserve(count.saturating_sub(lines.items().len()))?;
        }
        Ok(lines)
    }
}

/// Puts empty lists behind those of lower tasks until a task has one.
fn reach(lists: &mut Vec<AskedLines>, task: u16) -> Result<(), AllocError>
    requires { AreByTask 0 lists.old.items }
    ensures are { AreByTask 0 lists.new.items }
    ensures same { all_lines lists.new.items ≡ all_lines lists.old.items }
    ensures longer { length lists.old.items ≤ length lists.new.items }
    ensures reached { OnOk result (task < length lists.new.items) }
{
    while lists.len() <= task as usize {
        let none = AskedLines::new(*lists.allocator());
        lists.push(none)?;
    }
    Ok(())
}

/// How many lines lists have, for the memory that they take as one.
fn line_count(lists: &[AskedLines]) -> usize {
    let mut count: usize = 0;
    for list in lists {
        count = count.saturating_add(list.items().len());
    }
    count
}

/// Puts lines behind others. Where there are no others they stay where they are. On want of memory
/// the others are as before.
fn append(lines: &mut AskedLines, more: AskedLines) -> Result<(), AllocError>
    ensures ok { OnOk result (lines.new ≡ lines.old ++ more) }
    ensures err { OnErr result (lines.new ≡ lines.old) }
{
    if lines.items().is_empty() {
        *lines = more;
        return Ok(());
    }
    let mut more = more.into_vec();
    let none = AskedLines::new(*more.allocator());
    let mut all = replace(lines, none).into_vec();
    let appended = all.append(&mut more);
    *lines = AskedLines::from_vec(all);
    appended
}
