use smack_base::{Duplicate, Path};
use std::alloc::AllocError;

/// The verbs of calls on the file tree.
#[derive(Clone, Copy, PartialEq, Eq)]
pub enum TreeVerb {
    /// `create PATH`: makes an empty file.
    Create,
    /// `unlink PATH`: takes a file away.
    Unlink,
    /// `list PATH N`: names up to 16 entries of a directory, from the N-th on.
    List,
}

/// A call on the file tree.
#[derive(Drop)]
pub enum TreeCall {
    /// Makes an empty file.
    Create { path: Path },
    /// Takes a file away.
    Unlink { path: Path },
    /// Names up to 16 entries of a directory, from this one on in byte order, counted from 0.
    ListDir { path: Path, at: u32 },
}

impl Duplicate for TreeCall {
    fn copy(&self) -> Result<TreeCall, AllocError> {
        match self {
            TreeCall::Create { path } => Ok(TreeCall::Create { path: path.copy()? }),
            TreeCall::Unlink { path } => Ok(TreeCall::Unlink { path: path.copy()? }),
            TreeCall::ListDir { path, at } => Ok(TreeCall::ListDir {
                path: path.copy()?,
                at: *at,
            }),
        }
    }
}
