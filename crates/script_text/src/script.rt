ghost use Rattle.std.specs.Prelude.{◌≡◌, ◌≤◌, length, map, IfOk};
ghost use Rattle.script_spec.specs.Grammar.{parse, most_lines, most_script_tasks};
ghost use Rattle.script_spec.specs.Lines.{table_of};
ghost use Rattle.script_spec.specs.Tasks.{task_names};
ghost use Rattle.script_text.specs.Lines.{call_seen};
ghost use Rattle.script_text.specs.Scripts.{AreRead, Reads};
ghost use Rattle.script_text.specs.TaskTables.{part_names};

use crate::line::Line;
use crate::reading::{Draft, read_calls};
use crate::tasks::TaskTable;
use label_table::Labels;
use rule_text::Part;
use script_spec::{ScriptFault, What};
use smack_base::Duplicate;
use std::alloc::{AllocError, Global};
use std::marker::Model;

/// The most bytes of a script.
pub const MOST_BYTES: u32 = 4_194_304;

/// A script: calls in written order, as slices of the input. A contract sees their list.
#[derive(Drop)]
pub struct Script<'a> {
    lines: Vec<Line<'a>>,
    tasks: Vec<Part<'a>>,
    labels: Labels,
}

impl<'a> Model for Script<'a> {
    ghost use Rattle.std.specs.Prelude.{List, map};
    ghost use Rattle.script_spec.specs.Lines.{ScriptLine};
    ghost use Rattle.script_text.specs.Lines.{call_seen};
    ghost use Rattle.script_text.specs.IsScript.{IsScript};

    ghost Value = { List ScriptLine };

    ghost view = { λ s. map call_seen s.lines.items };

    ghost invariant = { λ s. IsScript (map call_seen s.lines.items) s.tasks.items s.labels };
}

impl<'a> Script<'a> {
    /// The script that these bytes are; or `Malformed` with the first line that is not in the
    /// grammar, or `TooLarge` with the limit that is exceeded first. `TooLarge{Bytes}` comes before
    /// all else.
    pub fn read(alloc: Global, bytes: &'a [u8]) -> Result<Script<'a>, ScriptFault>
        ensures { Reads result (parse bytes.now) }
    {
        if bytes.len() > MOST_BYTES as usize {
            return Err(ScriptFault::TooLarge { what: What::Bytes });
        }
        match read_calls(alloc, Part { bytes, at: 0 }) {
            Ok(draft) => {
                let Draft {
                    lines,
                    tasks,
                    rows: _,
                    labels,
                } = draft;
                let TaskTable { names, .. } = tasks;
                Ok(Script {
                    lines,
                    tasks: names,
                    labels,
                })
            }
            Err(fault) => Err(fault),
        }
    }

    /// The calls, in written order. They were read from bytes, as those of every script.
    pub fn lines(&self) -> &[Line<'a>]
        ensures calls { map call_seen result.now ≡ self.now }
        ensures read { AreRead self.now }
        ensures few { length result.now ≤ most_lines }
    {
        self.lines.as_slice()
    }

    /// The names of the tasks by pid: `init`, and then those of the `fork` lines in their order.
    pub fn tasks(&self) -> &[Part<'a>]
        ensures names { part_names result.now ≡ task_names self.now }
        ensures few { length result.now ≤ most_script_tasks }
    {
        self.tasks.as_slice()
    }

    /// The calls, the names of the tasks and the label table, which `lines`, `tasks` and `labels`
    /// give; takes no memory.
    pub fn into_parts(self) -> (Vec<Line<'a>>, Vec<Part<'a>>, Labels)
        ensures calls { map call_seen result.0.items ≡ self.entry }
        ensures read { AreRead self.entry }
        ensures few { length result.0.items ≤ most_lines }
        ensures names { part_names result.1.items ≡ task_names self.entry }
        ensures few_names { length result.1.items ≤ most_script_tasks }
        ensures labels { result.2 ≡ table_of self.entry }
    {
        let Script {
            lines,
            tasks,
            labels,
        } = self;
        (lines, tasks, labels)
    }

    /// The label table of the script: the predefined labels, and then its own in the order in
    /// which they stand, each once.
    pub fn labels(&self) -> Result<Labels, AllocError>
        ensures table { IfOk result (λ labels. labels ≡ table_of self.now) }
        ensures read { AreRead self.now }
    {
        self.labels.copy()
    }
}
