use crate::ids::LabelId;
use crate::modes::Modes;
use crate::sequence::{Duplicate, Sequence};
use std::alloc::AllocError;

/// One write to the rules or to a setting (Smack guide, its list of smackfs files).
#[derive(Clone, Copy, Debug, PartialEq, Eq)]
pub enum RuleOp {
    /// The pair's modes are these (`load2`).
    Set {
        s: LabelId,
        o: LabelId,
        m: Modes,
    },
    /// The pair's modes gain `allow` and then lose `deny` (`change-rule`).
    Change {
        s: LabelId,
        o: LabelId,
        allow: Modes,
        deny: Modes,
    },
    /// Each rule of the subject loses all its modes, and stays (`revoke-subject`).
    Revoke {
        s: LabelId,
    },
    /// The onlycap list is empty (`onlycap`).
    OnlyClear,
    /// The label joins the onlycap list (`onlycap`).
    OnlyAdd {
        l: LabelId,
    },
    /// The label of packets from outside (`ambient`).
    Ambient {
        l: LabelId,
    },
    /// The ptrace policy, from 0 to 2 (`ptrace`).
    Ptrace {
        n: u8,
    },
    /// Which checks are logged, from 0 to 3 (`logging`).
    Logging {
        n: u8,
    },
}

impl Duplicate for RuleOp {
    fn copy(&self) -> Result<RuleOp, AllocError> {
        Ok(*self)
    }
}

/// Rule writes in the order in which they take effect.
pub type RuleOps = Sequence<RuleOp>;

/// A rule of a subject on an object, as a self rule states it.
#[derive(Clone, Copy, PartialEq, Eq)]
pub struct Pair {
    pub s: LabelId,
    pub o: LabelId,
    pub m: Modes,
}

impl Duplicate for Pair {
    fn copy(&self) -> Result<Pair, AllocError> {
        Ok(*self)
    }
}

/// Subjects, objects and modes, in order.
pub type Pairs = Sequence<Pair>;
