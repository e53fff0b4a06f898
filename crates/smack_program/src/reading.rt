ghost use Rattle.std.specs.Prelude.{◌+◌, IfOk, IfErr};
ghost use Rattle.outside.specs.Seen.{seen};
ghost use Rattle.outside.specs.Reading.{ReadsAtMost};
ghost use Rattle.script_spec.specs.Grammar.{most_bytes};
ghost use Rattle.smack_program.specs.Parts.{IsRead, IsUnread};

use crate::status::Status;
use outside::{Source, Unread, read_all};
use script_text::{MOST_BYTES, What};
use std::alloc::Global;

/// Reads the input to its end, at most as many bytes as a script may have.
pub fn read_input<S: Source>(alloc: Global, source: &mut S) -> Result<Vec<u8>, Status>
    ensures read { IfOk result (λ bytes. IsRead (seen S.left S.faults source.old) (seen S.left S.faults source.new) bytes.items) }
    ensures unread { IfErr result (IsUnread (seen S.left S.faults source.old) (seen S.left S.faults source.new)) }
    ensures reads { ReadsAtMost (S.reads source.old) (S.reads source.new) (most_bytes + 2) }
{
    match read_all(alloc, source, MOST_BYTES) {
        Ok(bytes) => Ok(bytes),
        Err(Unread::Failed) => Err(Status::ReadFault),
        Err(Unread::TooMany) => Err(Status::TooLarge { what: What::Bytes }),
        Err(Unread::Memory) => Err(Status::OutOfMemory),
    }
}
