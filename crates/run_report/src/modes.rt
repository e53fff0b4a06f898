ghost use Rattle.std.specs.Prelude.{◌≡◌, ◌<◌, fold, length, IfOk};
ghost use Rattle.rules_spec.specs.Versions.{after_logging};
ghost use Rattle.run_report.specs.Modes.{modes_from, mode_in as mode_in_list};

use rules_spec::Batch;
use smack_base::RuleOp;
use std::alloc::{AllocError, Global};

fn mode_after(mode: u8, ops: &[RuleOp]) -> u8
    ensures { result ≡ fold after_logging mode ops.now }
{
    let mut mode = mode;
    for op in ops {
        if let RuleOp::Logging { n } = op {
            mode = *n;
        }
    }
    mode
}

/// The logging mode of each version of a journal, from version 0 on.
pub fn logging_modes(alloc: Global, journal: &[Batch]) -> Result<Vec<u8>, AllocError>
    ensures modes { IfOk result (λ modes. modes.items ≡ modes_from 1 journal.now) }
    ensures some { IfOk result (λ modes. 0 < length modes.items) }
{
    let mut modes = Vec::with_capacity(alloc, journal.len() + 1)?;
    let mut mode = 1;
    for batch in journal {
        modes.push(mode)?;
        mode = mode_after(mode, batch.ops.items());
    }
    modes.push(mode)?;
    Ok(modes)
}

/// The mode of a version; that of the last where there are fewer.
pub fn mode_in(modes: &[u8], version: u32) -> u8
    requires { 0 < length modes.now }
    ensures { result ≡ mode_in_list modes.now version }
{
    let version = version as usize;
    if version < modes.len() {
        modes[version]
    } else {
        modes[modes.len() - 1]
    }
}
