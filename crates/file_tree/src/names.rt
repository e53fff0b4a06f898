ghost use Rattle.std.specs.Prelude.{IfOk, ◌≡◌, ◌<◌, ◌≤◌, ◌+◌, ℕ, List, [], ◌∷◌, ◌++◌, cond, length, Some, None, OnOk, OnErr};
ghost use Rattle.std.specs.Vec.{vec_capacity, vec_len};
ghost use Rattle.name_map.specs.Names.{names_in, Rises};
ghost use Rattle.tree_spec.specs.Listed.{listed_from};
ghost use Rattle.file_tree.specs.Indexes.{found, names_at, is_place};

use name_map::NameMap;
use smack_base::Bytes;
use std::alloc::{AllocError, Global};
use tree_spec::Listing;

/// The number that stands for a name in a node.
#[tactic(auto, using(crate::proofs::Written::found_here, crate::proofs::Written::found_past))]
pub(crate) fn find(below: &[NameMap], dir: u32, name: &[u8]) -> Option<u32>
    ensures { result ≡ found below.now dir name.now }
{
    if (dir as usize) < below.len() {
        below[dir as usize].get(name)
    } else {
        None
    }
}

/// Gives a name in a node a number. On want of memory nothing changes.
pub(crate) fn put_name(
    below: &mut Vec<NameMap>,
    dir: u32,
    name: Bytes,
    number: u32,
) -> Result<(), AllocError>
    requires { dir < length below.old.items }
    ensures ok { OnOk result ((d : ℕ) (q : List ℕ) → found below.new.items d q ≡ cond (is_place dir name d q) (Some number) (found below.old.items d q)) }
    ensures long { length below.new.items ≡ length below.old.items }
    ensures room { vec_capacity below.new ≡ vec_capacity below.old }
    ensures err { OnErr result (below.new.items ≡ below.old.items) }
{
    if let Err(error) = below[dir as usize].insert(name, number) {
        return Err(error);
    }
    Ok(())
}

/// Takes a name out of a node.
pub(crate) fn take_name(below: &mut Vec<NameMap>, dir: u32, name: &[u8])
    requires { dir < length below.old.items }
    ensures taken { (d : ℕ) (q : List ℕ) → found below.new.items d q ≡ cond (is_place dir name.now d q) None (found below.old.items d q) }
    ensures long { length below.new.items ≡ length below.old.items }
{
    below[dir as usize].remove(name);
}

/// Puts an empty map of names last, where there is room.
pub(crate) fn put_empty(alloc: Global, below: &mut Vec<NameMap>)
    requires { vec_len below.old < vec_capacity below.old }
    ensures { below.new.items ≡ below.old.items ++ [] ∷ [] }
{
    below.push(NameMap::new(alloc)).unwrap();
}

/// Gives a name in a node a number, and puts an empty map of names last. On want of memory nothing
/// changes.
#[tactic(auto, using(crate::proofs::Indexed::more_found))]
pub(crate) fn put_more(
    alloc: Global,
    below: &mut Vec<NameMap>,
    dir: u32,
    name: Bytes,
    number: u32,
) -> Result<(), AllocError>
    requires { dir < length below.old.items }
    ensures ok { OnOk result ((d : ℕ) (q : List ℕ) → found below.new.items d q ≡ cond (is_place dir name d q) (Some number) (found below.old.items d q)) }
    ensures long { OnOk result (length below.new.items ≡ length below.old.items + 1) }
    ensures err { OnErr result (below.new.items ≡ below.old.items) }
{
    below.reserve(1)?;
    if let Err(error) = put_name(below, dir, name, number) {
        return Err(error);
    }
    put_empty(alloc, below);
    Ok(())
}

/// The names of one listing of a node, from this place on.
#[tactic(auto, using(crate::proofs::Children::names_here, crate::proofs::Children::names_past, crate::proofs::Children::none_rise))]
pub(crate) fn listed(
    alloc: Global,
    below: &[NameMap],
    dir: u32,
    at: u32,
) -> Result<Listing, AllocError>
    ensures names { IfOk result (λ list. list ≡ listed_from at (names_in (names_at below.now dir))) }
    ensures rises { Rises (names_in (names_at below.now dir)) }
{
    if (dir as usize) < below.len() {
        below[dir as usize].listed(alloc, at)
    } else {
        Ok(Listing::new(alloc))
    }
}

/// How many names there are in a node.
#[tactic(auto, using(crate::proofs::Children::names_here, crate::proofs::Children::names_past, crate::proofs::Children::none_rise))]
pub(crate) fn count(below: &[NameMap], dir: u32) -> usize
    ensures count { result ≡ length (names_at below.now dir) }
    ensures rises { Rises (names_in (names_at below.now dir)) }
{
    if (dir as usize) < below.len() {
        below[dir as usize].len()
    } else {
        0
    }
}
