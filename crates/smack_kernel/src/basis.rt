ghost use Rattle.std.specs.Prelude.{◌≡◌, IfOk};

use crate::index::Index;
use smack_base::Duplicate;
use std::alloc::AllocError;
use task_creds::Cred;

/// What a task's calls are judged by: the rules that it has taken, and its credentials.
#[derive(Drop)]
pub(crate) struct Basis {
    pub(crate) index: Index,
    pub(crate) creds: Cred,
}

impl Basis {
    /// The same rules and credentials, for a child.
    pub(crate) fn copy(&self) -> Result<Basis, AllocError>
        ensures index { IfOk result (λ b. b.index ≡ self.now.index) }
        ensures creds { IfOk result (λ b. b.creds ≡ self.now.creds) }
    {
        let rules = self.index.rules.copy()?;
        let creds = self.creds.copy()?;
        Ok(Basis {
            index: Index {
                rules,
                rows: self.index.rows,
            },
            creds,
        })
    }
}
