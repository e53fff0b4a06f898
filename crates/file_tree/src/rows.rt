ghost use Rattle.std.specs.Prelude.{◌≡◌, ◌<◌, None, Some, length, slice_set};
ghost use Rattle.tree_spec.specs.Trees.{node_at, relabelled, parent_of};

use smack_base::Bytes;
use tree_spec::{NodeLabels, NodeRow};

/// Takes the row of a node out.
#[tactic(auto, using(crate::proofs::Indexed::node_here))]
pub(crate) fn take_row(rows: &mut Vec<Option<NodeRow>>, n: u32) -> Option<NodeRow>
    requires { n < length rows.old.items }
    ensures row { result ≡ node_at rows.old.items n }
    ensures rows { rows.new.items ≡ slice_set rows.old.items n None }
{
    rows[n as usize].take()
}

/// Puts the row of a node back.
pub(crate) fn put_row(rows: &mut Vec<Option<NodeRow>>, n: u32, row: NodeRow)
    requires { n < length rows.old.items }
    ensures { rows.new.items ≡ slice_set rows.old.items n (Some row) }
{
    rows[n as usize] = Some(row);
}

/// A node, which is not the root, at another place.
pub(crate) fn moved_row(row: NodeRow, dir: u32, name: Bytes) -> NodeRow
    ensures { result ≡ record row { parent = Some dir; name = name } }
{
    NodeRow {
        parent: Some(dir),
        name,
        kind: row.kind,
        labels: row.labels,
    }
}

/// A node with other attributes.
pub(crate) fn relabelled_row(row: NodeRow, labels: NodeLabels) -> NodeRow
    ensures { result ≡ relabelled labels row }
{
    NodeRow {
        parent: row.parent,
        name: row.name,
        kind: row.kind,
        labels,
    }
}

/// The directory that a node stands in.
#[tactic(auto, using(crate::proofs::Indexed::parent_here, crate::proofs::Indexed::parent_past))]
pub(crate) fn parent(rows: &[Option<NodeRow>], n: u32) -> Option<u32>
    ensures { result ≡ parent_of (node_at rows.now n) }
{
    if (n as usize) < rows.len() {
        match &rows[n as usize] {
            None => None,
            Some(row) => row.parent,
        }
    } else {
        None
    }
}
