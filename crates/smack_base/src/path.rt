ghost use Rattle.std.specs.Prelude.{◌≡◌, ◌<◌, ◌+◌, ◌^◌, ◌⊎◌, length, map, not, position, is_ok, IsOk, IfOk, IfErr, IfSome};
ghost use Rattle.std.specs.Result.{result_err};
ghost use Rattle.smack_base.specs.Paths.{is_name_byte, is_dots, name_fault, path_of};
ghost use Rattle.smack_base.specs.PathNames.{path_name, path_names, names_fault, begins_with_slash};

use crate::path_names::PathNames;
use crate::sequence::{Bytes, Duplicate, NameList};
use std::alloc::{AllocError, Global};
use std::marker::Model;

/// What is wrong with a text as a path. Where no slash stands first it is `NotAbsolute`; then the
/// first bad name decides, by the first fault in this order; `TooDeep` comes where no name is bad.
/// Places count from 0.
#[derive(Clone, Copy, PartialEq, Eq)]
pub enum PathFault {
    /// It has no byte, or its first byte is not `/`.
    NotAbsolute,
    /// The name that would begin at this place has no byte.
    EmptyName { at: u32 },
    /// The name that begins at this place has more than 64 bytes.
    NameTooLong { at: u32 },
    /// The name that begins at this place is `.` or `..`.
    DotName { at: u32 },
    /// The byte at this place is the first of its name that no name has.
    BadByte { at: u32 },
    /// It has more than 32 names.
    TooDeep,
    /// There is no memory for it.
    Memory,
}

/// An absolute path: `/`, or 1 to 32 names, each behind a `/`. A name has 1 to 64 bytes from 0x21
/// to 0x7E, none of them `/`, and is not `.` or `..`.
#[derive(Drop)]
pub struct Path {
    names: NameList,
}

impl Model for Path {
    ghost use Rattle.std.specs.Prelude.{List, ℕ};

    ghost Value = { List (List ℕ) };

    ghost view = { λ p. p.names };
}

const LONGEST_NAME: usize = 64;

const MOST_NAMES: u32 = 32;

/// `MOST_NAMES` names of `LONGEST_NAME` bytes, each behind a slash.
const LONGEST_PATH: usize = 2080;

fn is_of_name(b: u8) -> bool
    ensures { result ≡ is_name_byte b }
{
    b.is_ascii_graphic()
}

fn first_bad(name: &[u8]) -> Option<usize>
    ensures place { result ≡ position (λ b. not (is_name_byte b)) name.now }
    ensures within { IfSome result (λ at. at < length name.now) }
{
    name.iter().position(|b| !is_of_name(*b))
}

fn is_dot_name(name: &[u8]) -> bool
    ensures { result ≡ is_dots name.now }
{
    match name {
        [b] => *b == b'.',
        [b, c] => *b == b'.' && *c == b'.',
        _ => false,
    }
}

/// The first fault of the name that begins at this place.
fn fault_of_name(at: u32, name: &[u8]) -> Option<PathFault>
    requires { at + length name.now < 2 ^ 32 }
    ensures { result ≡ name_fault (path_name at name.now) }
{
    if name.is_empty() {
        return Some(PathFault::EmptyName { at });
    }
    if name.len() > LONGEST_NAME {
        return Some(PathFault::NameTooLong { at });
    }
    if is_dot_name(name) {
        return Some(PathFault::DotName { at });
    }
    match first_bad(name) {
        Some(place) => Some(PathFault::BadByte {
            at: at + place as u32,
        }),
        None => None,
    }
}

/// The fault of the names of a path.
#[tactic(auto, using(crate::proofs::NamesOfPaths::fewer_names))]
fn fault_of_names(bytes: &[u8]) -> Option<PathFault>
    requires { length bytes.now < 2 ^ 32 }
    ensures { result ≡ names_fault (path_names bytes.now) }
{
    let mut left = PathNames::of(bytes);
    let mut count = 0u32;
    while let Some((at, name)) = left.next() {
        if let Some(fault) = fault_of_name(at, name) {
            return Some(fault);
        }
        count += 1;
    }
    if count > MOST_NAMES {
        Some(PathFault::TooDeep)
    } else {
        None
    }
}

fn is_absolute(bytes: &[u8]) -> bool
    ensures { result ≡ begins_with_slash bytes.now }
{
    !bytes.is_empty() && bytes[0] == b'/'
}

#[tactic(auto, using(crate::proofs::NamesOfPaths::fault_of_path, crate::proofs::NamesOfPaths::not_absolute))]
fn fault_of(bytes: &[u8]) -> Option<PathFault>
    requires { length bytes.now < 2 ^ 32 }
    ensures { result ≡ result_err (path_of bytes.now) }
{
    if is_absolute(bytes) {
        fault_of_names(bytes)
    } else {
        Some(PathFault::NotAbsolute)
    }
}

fn names_of(alloc: Global, bytes: &[u8]) -> Result<NameList, AllocError>
    requires { length bytes.now < 2 ^ 32 }
    ensures { IfOk result (λ names. names ≡ map (λ n. n.bytes) (path_names bytes.now)) }
{
    let mut names = NameList::new(alloc);
    let mut left = PathNames::of(bytes);
    while let Some((_, name)) = left.next() {
        names.push(Bytes::from_slice(alloc, name)?)?;
    }
    Ok(names)
}

/// Whether a text is a path. Takes no memory.
#[tactic(auto, using(crate::proofs::LongestPath::too_long))]
pub fn is_path(bytes: &[u8]) -> bool
    ensures { result ≡ is_ok (path_of bytes.now) }
{
    if bytes.len() > LONGEST_PATH {
        return false;
    }
    fault_of(bytes).is_none()
}

impl Path {
    /// The path that these bytes are, or the first fault that they have. `Memory` comes only where
    /// they are a path.
    pub fn read(alloc: Global, bytes: &[u8]) -> Result<Path, PathFault>
        requires { length bytes.now < 2 ^ 32 }
        ensures path { IfOk result (λ p. path_of bytes.now ≡ Ok p) }
        ensures fault { IfErr result (λ f. (path_of bytes.now ≡ Err f) ⊎ ((f ≡ PathFault.Memory) × IsOk (path_of bytes.now))) }
    {
        match fault_of(bytes) {
            Some(fault) => Err(fault),
            None => match names_of(alloc, bytes) {
                Ok(names) => Ok(Path { names }),
                Err(_) => Err(PathFault::Memory),
            },
        }
    }

    /// The names of the path, from the root on.
    pub fn names(&self) -> &[Bytes]
        ensures { result.now ≡ self.now }
    {
        self.names.items()
    }
}

impl Duplicate for Path {
    fn copy(&self) -> Result<Path, AllocError> {
        let names = self.names.copy()?;
        Ok(Path { names })
    }
}
