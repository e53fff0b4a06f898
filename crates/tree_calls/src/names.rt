ghost use Rattle.std.specs.Prelude.{◌≡◌, map, take, drop, IfOk};
ghost use Rattle.world_spec.specs.Worlds.{file_names, in_byte_order};
ghost use Rattle.world_spec.specs.TreeCalls.{most_names};
ghost use Rattle.tree_calls.specs.Shown.{lists_of};

use std::alloc::{AllocError, Global};
use std::collections::BTreeSet;
use world_spec::{FileRow, Listing};

/// The most names of one listing.
const MOST_NAMES: usize = 16;

/// The names of files, in byte order.
fn in_order<'a>(alloc: Global, files: &'a [FileRow]) -> Result<BTreeSet<&'a [u8]>, AllocError>
    ensures { IfOk result (λ names. lists_of names.keys ≡ in_byte_order (file_names files.now)) }
{
    let mut names = BTreeSet::new(alloc);
    for file in files {
        let Ok(_) = names.insert(file.name.items()) else {
            return Err(AllocError);
        };
    }
    Ok(names)
}

fn as_list<'a>(alloc: Global, set: &BTreeSet<&'a [u8]>) -> Result<Vec<&'a [u8]>, AllocError>
    ensures { IfOk result (λ list. list.items ≡ set.now.keys) }
{
    let mut list = Vec::new(alloc);
    for name in set.iter() {
        list.push(*name)?;
    }
    Ok(list)
}

/// The names from this place on.
fn from_place<'a, 'b>(names: &'b [&'a [u8]], at: usize) -> &'b [&'a [u8]]
    ensures { result.now ≡ drop at names.now }
{
    if at < names.len() {
        &names[at..]
    } else {
        &names[names.len()..]
    }
}

/// The first names, as many as one listing has at most.
fn one_listing<'a, 'b>(names: &'b [&'a [u8]]) -> &'b [&'a [u8]]
    ensures { result.now ≡ take most_names names.now }
{
    if MOST_NAMES < names.len() {
        &names[..MOST_NAMES]
    } else {
        names
    }
}

fn all_names(alloc: Global, names: &[&[u8]]) -> Result<Listing, AllocError>
    ensures { IfOk result (λ list. list ≡ lists_of names.now) }
{
    let mut list = Listing::new(alloc);
    for name in names {
        list.push(*name)?;
    }
    Ok(list)
}

/// The names of one listing of files, from this place on in byte order.
#[tactic(auto, using(crate::proofs::Orders::shown_on))]
pub(crate) fn names_from(alloc: Global, files: &[FileRow], at: u32) -> Result<Listing, AllocError>
    ensures { IfOk result (λ names. names ≡ take most_names (drop at (in_byte_order (file_names files.now)))) }
{
    let set = in_order(alloc, files)?;
    let list = as_list(alloc, &set)?;
    all_names(alloc, one_listing(from_place(list.as_slice(), at as usize)))
}
