ghost use Rattle.std.specs.Prelude.{◌≡◌, ◌++◌, ◌∷◌, [], None, IfOk, OnOk};
ghost use Rattle.tree_spec.specs.Trees.{node_named};
ghost use Rattle.world_spec.specs.Walks.{node_of, but_last, path_directory, path_node, asks_to_search as asks_to_search_of, walk_on, walk_to_directory, walk_to_node};
ghost use Rattle.path_walk.specs.Steps.{look_up, step_parts};

use crate::places::node_named_last;
use file_tree::Tree;
use rules_spec::EXECUTE;
use smack_base::Bytes;
use std::alloc::AllocError;
use world_spec::{Part, Question, Walker, Why};

/// Where a path leads: the directory that has its last name, and its node, where they are. For `/`
/// both are the root.
#[derive(Clone, Copy)]
pub struct Walked {
    pub dir: Option<u32>,
    pub node: Option<u32>,
}

/// The part by which a task asks to search a directory.
fn asks_to_search(who: Walker, tree: &Tree, dir: u32) -> Part
    ensures { result ≡ asks_to_search_of who tree.now dir }
{
    Part::Asks {
        question: Question::Full {
            by: who.by,
            s: who.label,
            o: tree.label(dir),
            m: EXECUTE,
        },
    }
}

/// The look-up of a name behind which a name follows.
fn looked_up(tree: &Tree, found: Option<u32>) -> Part
    ensures { result ≡ look_up tree.now found }
{
    match found {
        None => Part::Refuses {
            holds: true,
            why: Why::NoSuchName,
        },
        Some(n) => Part::Refuses {
            holds: tree.is_file(n),
            why: Why::NotDirectory,
        },
    }
}

/// Adds one step of a walk, and gives the node that the name leads to.
fn put_step(
    parts: &mut Vec<Part>,
    who: Walker,
    tree: &Tree,
    dir: u32,
    name: &[u8],
) -> Result<Option<u32>, AllocError>
    ensures next { IfOk result (λ next. next ≡ node_named tree.now dir name.now) }
    ensures parts { OnOk result (parts.new.items ≡ parts.old.items ++ step_parts who tree.now dir name.now) }
{
    let next = tree.look(dir, name);
    parts.extend_from_slice(&[asks_to_search(who, tree, dir), looked_up(tree, next)])?;
    Ok(next)
}

/// Adds the walk through directories, and gives the last one, where the names lead to one.
fn put_dirs(
    parts: &mut Vec<Part>,
    who: Walker,
    tree: &Tree,
    names: &[Bytes],
) -> Result<Option<u32>, AllocError>
    ensures node { IfOk result (λ node. node ≡ node_of tree.now 0 names.now) }
    ensures parts { OnOk result (parts.new.items ≡ parts.old.items ++ walk_on who tree.now 0 names.now) }
{
    let mut dir = 0;
    for name in names {
        match put_step(parts, who, tree, dir, name.items())? {
            None => return Ok(None),
            Some(next) => dir = next,
        }
    }
    parts.extend_from_slice(&[asks_to_search(who, tree, dir)])?;
    Ok(Some(dir))
}

/// Adds the walk to the directory that has the last name of a path, and gives where the path leads.
pub fn put_walk_to_directory(
    parts: &mut Vec<Part>,
    who: Walker,
    tree: &Tree,
    names: &[Bytes],
) -> Result<Walked, AllocError>
    ensures dir { IfOk result (λ walked. walked.dir ≡ path_directory tree.now names.now) }
    ensures node { IfOk result (λ walked. walked.node ≡ path_node tree.now names.now) }
    ensures parts { OnOk result (parts.new.items ≡ parts.old.items ++ walk_to_directory who tree.now names.now) }
{
    match names {
        [] => Ok(Walked {
            dir: Some(0),
            node: Some(0),
        }),
        [dirs @ .., last] => {
            let dir = put_dirs(parts, who, tree, dirs)?;
            Ok(Walked {
                dir,
                node: node_named_last(tree, dir, last.items()),
            })
        }
    }
}

/// Adds the walk of a whole path, and gives where it leads.
pub fn put_walk_to_node(
    parts: &mut Vec<Part>,
    who: Walker,
    tree: &Tree,
    names: &[Bytes],
) -> Result<Walked, AllocError>
    ensures dir { IfOk result (λ walked. walked.dir ≡ path_directory tree.now names.now) }
    ensures node { IfOk result (λ walked. walked.node ≡ path_node tree.now names.now) }
    ensures parts { OnOk result (parts.new.items ≡ parts.old.items ++ walk_to_node who tree.now names.now) }
{
    let walked = put_walk_to_directory(parts, who, tree, names)?;
    parts.extend_from_slice(&[Part::Refuses {
        holds: walked.node.is_none(),
        why: Why::NoSuchName,
    }])?;
    Ok(walked)
}
