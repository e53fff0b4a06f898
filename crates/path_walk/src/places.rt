ghost use Rattle.std.specs.Prelude.{◌≡◌, ◌<◌, None, length, IfSome};
ghost use Rattle.tree_spec.specs.Trees.{node_named};
ghost use Rattle.world_spec.specs.Walks.{onward, node_of, path_directory, path_node, last_name as last_name_of};

use file_tree::Tree;
use smack_base::Bytes;

/// The node that some names lead to from the root, where there is one.
fn place(tree: &Tree, names: &[Bytes]) -> Option<u32>
    ensures node { result ≡ node_of tree.now 0 names.now }
    ensures within { IfSome result (λ n. n < length tree.now) }
{
    let mut at = tree.root();
    for name in names {
        match tree.look(at, name.items()) {
            None => return None,
            Some(next) => at = next,
        }
    }
    Some(at)
}

/// The node of a last name in a directory.
pub(crate) fn node_named_last(tree: &Tree, dir: Option<u32>, name: &[u8]) -> Option<u32>
    ensures node { result ≡ onward None dir (λ d. node_named tree.now d name.now) }
    ensures within { IfSome result (λ n. n < length tree.now) }
{
    match dir {
        None => None,
        Some(d) => tree.look(d, name),
    }
}

/// The directory that has the last name of a path, where there is one. Where the path leads to
/// nothing, the name is free there.
#[tactic(auto, using(crate::proofs::Paths::last_is_free))]
pub fn directory_at(tree: &Tree, names: &[Bytes]) -> Option<u32>
    ensures node { result ≡ path_directory tree.now names.now }
    ensures within { IfSome result (λ d. d < length tree.now) }
    ensures free { IfSome result (λ d. path_node tree.now names.now ≡ None → node_named tree.now d (last_name_of names.now) ≡ None) }
{
    match names {
        [] => Some(tree.root()),
        [dirs @ .., _] => place(tree, dirs),
    }
}

/// The node of a path, where there is one.
pub fn node_at(tree: &Tree, names: &[Bytes]) -> Option<u32>
    ensures node { result ≡ path_node tree.now names.now }
    ensures within { IfSome result (λ n. n < length tree.now) }
{
    match names {
        [] => Some(tree.root()),
        [dirs @ .., last] => node_named_last(tree, place(tree, dirs), last.items()),
    }
}

/// The last name of a path; no byte for `/`.
pub fn last_name(names: &[Bytes]) -> &[u8]
    ensures { result.now ≡ last_name_of names.now }
{
    match names {
        [] => &[],
        [.., last] => last.items(),
    }
}
