use crate::sequence::Duplicate;
use std::alloc::AllocError;

/// A label by its place in a label table, from 0 to 65,534.
#[derive(Clone, Copy, Debug, PartialEq, Eq)]
pub struct LabelId(pub u16);

impl LabelId {
    /// `_`, the floor label.
    pub const FLOOR: LabelId = LabelId(0);

    /// `^`, the hat label.
    pub const HAT: LabelId = LabelId(1);

    /// `*`, the star label.
    pub const STAR: LabelId = LabelId(2);

    /// `?`, the huh label.
    pub const HUH: LabelId = LabelId(3);

    /// `@`, the web label.
    pub const WEB: LabelId = LabelId(4);
}

impl Duplicate for LabelId {
    fn copy(&self) -> Result<LabelId, AllocError> {
        Ok(*self)
    }
}

/// The caller's name for a task: 0 is the first task.
#[derive(Clone, Copy, PartialEq, Eq)]
pub struct Pid(pub u16);
