ghost use Rattle.std.specs.Prelude.{◌≡◌, IfOk};
ghost use Rattle.script_text.specs.TaskTables.{part_names};

use rule_text::Part;
use smack_base::{Bytes, NameList};
use std::alloc::{AllocError, Global};

/// The names of tasks, copied.
pub fn names_of(alloc: Global, tasks: &[Part<'_>]) -> Result<NameList, AllocError>
    ensures { IfOk result (λ names. names ≡ part_names tasks.now) }
{
    let mut names = NameList::new(alloc);
    for task in tasks {
        names.push(Bytes::from_slice(alloc, task.bytes)?)?;
    }
    Ok(names)
}
