use smack_base::LabelId;

/// Who walks a path: the number of a task, and the label that it asks with.
#[derive(Clone, Copy)]
pub struct Walker {
    pub by: u16,
    pub label: LabelId,
}
