ghost use Rattle.std.specs.Prelude.{◌≡◌};
ghost use Rattle.smack_program.specs.Statuses.{status_of, code_of};

use script_text::{Cause, ScriptFault, What};

/// How the program ended.
#[derive(Clone, Copy, PartialEq, Eq)]
pub enum Status {
    /// All was read, run and written.
    Done,
    /// The words of the command line are none of the commands.
    Usage,
    /// The first bad line of the script, from 1, and why it is bad.
    Malformed { line: u32, cause: Cause },
    /// The source failed.
    ReadFault,
    /// The sink failed.
    WriteFault,
    /// Want of memory.
    OutOfMemory,
    /// The limit that the input exceeds.
    TooLarge { what: What },
}

impl Status {
    /// The status of a script that was not read.
    pub fn of_fault(fault: ScriptFault) -> Status
        ensures { result ≡ status_of fault }
    {
        match fault {
            ScriptFault::Malformed { line, cause } => Status::Malformed { line, cause },
            ScriptFault::TooLarge { what } => Status::TooLarge { what },
            ScriptFault::Memory => Status::OutOfMemory,
        }
    }

    /// The exit status of the program.
    pub fn code(self) -> u8
        ensures { result ≡ code_of self }
    {
        match self {
            Status::Done => 0,
            Status::Usage => 2,
            Status::Malformed { line: _, cause: _ } => 3,
            Status::ReadFault => 4,
            Status::WriteFault => 5,
            Status::OutOfMemory => 6,
            Status::TooLarge { what: _ } => 7,
        }
    }
}
