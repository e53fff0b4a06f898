ghost use Rattle.std.specs.Prelude.{◌≡◌, ◌++◌, [], ◌∷◌, fold, IfOk, OnOk};
ghost use Rattle.replay_spec.specs.Replays.{with_asked};

use crate::by_task::AskedByTask;
use record_spec::{AskedLine, AskedLines};
use std::alloc::{AllocError, Global};
use std::marker::Model;
use std::mem::replace;

/// Asked lines of one task.
#[derive(Drop)]
pub struct Block {
    /// The number of the task.
    pub task: u16,
    /// The lines, each of this task.
    pub lines: AskedLines,
}

/// Asked lines in the order in which they came, in blocks of one task each, so that those of several
/// tasks are put together without a line being moved.
#[derive(Drop)]
pub struct AskedBlocks {
    full: Vec<Block>,
    task: u16,
    last: AskedLines,
}

impl Model for AskedBlocks {
    ghost use Rattle.std.specs.Prelude.{◌++◌, List};
    ghost use Rattle.record_spec.specs.declared.AskedLine.{AskedLine};
    ghost use Rattle.asked_lines.specs.Blocks.{block_lines, AreOf, AreBlocks};

    ghost Value = { List AskedLine };

    ghost view = { λ a. block_lines a.full.items ++ a.last };

    ghost invariant = { λ a. AreBlocks a.full.items × AreOf a.task a.last };
}

impl AskedBlocks {
    /// No line.
    pub fn new(alloc: Global) -> AskedBlocks
        ensures { result ≡ [] }
    {
        AskedBlocks {
            full: Vec::new(alloc),
            task: 0,
            last: AskedLines::new(alloc),
        }
    }

    /// Puts a line behind all others.
    pub fn push(&mut self, line: AskedLine) -> Result<(), AllocError>
        ensures { OnOk result (self.new ≡ self.old ++ line ∷ []) }
    {
        if line.task != self.task {
            let none = AskedLines::new(*self.full.allocator());
            let lines = replace(&mut self.last, none);
            let task = self.task;
            self.task = line.task;
            self.full.push(Block { task, lines })?;
        }
        self.last.push(line)
    }

    /// Puts lines behind all others.
    pub fn append(&mut self, more: AskedBlocks) -> Result<(), AllocError>
        ensures { OnOk result (self.new ≡ self.old ++ more) }
    {
        let AskedBlocks {
            mut full,
            task: number,
            last,
        } = more;
        let lines = replace(&mut self.last, last);
        let task = self.task;
        self.task = number;
        self.full.push(Block { task, lines })?;
        self.full.append(&mut full)
    }

    /// The lines by rising task, those of one task in the order in which they came.
    pub fn by_task(self, alloc: Global) -> Result<AskedLines, AllocError>
        ensures { IfOk result (λ lines. lines ≡ fold with_asked [] self) }
    {
        let AskedBlocks {
            mut full,
            task,
            last,
        } = self;
        full.push(Block { task, lines: last })?;
        let mut lines = AskedByTask::new(alloc)?;
        for block in full {
            lines.put_block(block)?;
        }
        lines.into_lines(alloc)
    }
}
