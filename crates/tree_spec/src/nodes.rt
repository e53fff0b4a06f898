use smack_base::{Bytes, LabelId};

/// What a node is.
#[derive(Clone, Copy, PartialEq, Eq)]
pub enum Kind {
    File,
    Dir,
}

/// The attributes of a node.
#[derive(Clone, Copy, PartialEq, Eq)]
pub struct NodeLabels {
    /// SMACK64: the label that questions about the node are judged by.
    pub label: LabelId,
    /// SMACK64EXEC: the label of a task that runs the file.
    pub exec: Option<LabelId>,
    /// SMACK64MMAP: the label whose rules a task that maps the file must have.
    pub map: Option<LabelId>,
    /// SMACK64TRANSMUTE: whether a rule with the mode `t` gives new nodes the directory's label.
    pub transmute: bool,
}

/// A node, and where it stands.
#[derive(Drop)]
pub struct NodeRow {
    /// The number of its directory; the root has none.
    pub parent: Option<u32>,
    /// Its name there; that of the root has no byte.
    pub name: Bytes,
    pub kind: Kind,
    pub labels: NodeLabels,
}
