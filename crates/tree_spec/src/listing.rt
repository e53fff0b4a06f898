ghost use Rattle.std.specs.Prelude.{◌≡◌, [], ◌∷◌, ◌++◌, ◌+◌, ◌≤◌, ◌/◌, length, IfOk, OnOk, OnErr, MatchOption};
ghost use Rattle.std.specs.Vec.{vec_len, vec_capacity};
ghost use Rattle.tree_spec.specs.Listings.{name_bytes, told_length, behind_length, first_listed, behind_first};

use smack_base::Duplicate;
use std::alloc::{AllocError, Global};
use std::marker::Model;

/// The greatest byte, which stands in front of a name as often as it goes into the name's length.
const FULL: u8 = 255;

/// Names in order, which contracts see as their list. They lie in one block, each behind its length.
#[derive(Drop)]
pub struct Listing {
    bytes: Vec<u8>,
}

impl Model for Listing {
    ghost use Rattle.std.specs.Prelude.{◌≡◌, List, ℕ};
    ghost use Rattle.tree_spec.specs.Listings.{names_in, listing_bytes};

    ghost Value = { List (List ℕ) };

    ghost view = { λ l. names_in l.bytes.items };

    ghost invariant = { λ l. listing_bytes (names_in l.bytes.items) ≡ l.bytes.items };
}

/// The names of a listing that are still to be read.
#[derive(Drop)]
pub struct ListedNames<'a> {
    rest: &'a [u8],
}

impl<'a> Model for ListedNames<'a> {
    ghost use Rattle.std.specs.Prelude.{◌≡◌, List, ℕ};
    ghost use Rattle.tree_spec.specs.Listings.{names_in, listing_bytes};

    ghost Value = { List (List ℕ) };

    ghost view = { λ n. names_in n.rest.now };

    ghost invariant = { λ n. listing_bytes (names_in n.rest.now) ≡ n.rest.now };
}

/// Puts a name behind its length. There is room for both.
fn put_name(out: &mut Vec<u8>, name: &[u8])
    requires { vec_len out.old + length name.now / 255 + 1 + length name.now ≤ vec_capacity out.old }
    ensures { out.new.items ≡ out.old.items ++ name_bytes name.now }
{
    let len = name.len();
    out.resize(out.len() + len / 255, FULL).unwrap();
    out.push((len % 255) as u8).unwrap();
    out.extend_from_slice(name).unwrap();
}

/// The length that a block tells first, and what comes behind it.
fn split_length(bytes: &[u8]) -> (usize, &[u8])
    requires { told_length bytes.now ≤ length bytes.now }
    ensures len { result.0 ≡ told_length bytes.now }
    ensures behind { result.1.now ≡ behind_length bytes.now }
{
    let mut len = 0;
    let mut rest = bytes;
    while let [b, behind @ ..] = rest {
        if *b != FULL {
            return (len + *b as usize, behind);
        }
        len += 255;
        rest = behind;
    }
    (len, rest)
}

/// The first name of a block, and what comes behind it.
fn split_name(bytes: &[u8]) -> (&[u8], &[u8])
    requires short { told_length bytes.now ≤ length bytes.now }
    requires whole { told_length bytes.now ≤ length (behind_length bytes.now) }
    ensures name { result.0.now ≡ first_listed bytes.now }
    ensures behind { result.1.now ≡ behind_first bytes.now }
{
    let (len, behind) = split_length(bytes);
    (&behind[..len], &behind[len..])
}

impl Listing {
    /// No names.
    pub fn new(alloc: Global) -> Listing
        ensures { result ≡ [] }
    {
        Listing {
            bytes: Vec::new(alloc),
        }
    }

    /// Puts a name last; on want of memory the listing is as before.
    #[tactic(auto, using(crate::proofs::Blocks::one_more_name, crate::proofs::Blocks::one_more_kept))]
    pub fn push(&mut self, name: &[u8]) -> Result<(), AllocError>
        ensures ok { OnOk result (self.new ≡ self.old ++ name.now ∷ []) }
        ensures err { OnErr result (self.new ≡ self.old) }
    {
        let room = name.len() / 255 + 1 + name.len();
        self.bytes.reserve(room)?;
        put_name(&mut self.bytes, name);
        Ok(())
    }

    /// How many names there are.
    #[tactic(auto, using(crate::proofs::Blocks::few_names))]
    pub fn len(&self) -> usize
        ensures { result ≡ length self.now }
    {
        let mut left = self.names();
        let mut count = 0;
        while left.next().is_some() {
            count += 1;
        }
        count
    }

    /// The names, in order.
    pub fn names(&self) -> ListedNames<'_>
        ensures { result ≡ self.now }
    {
        ListedNames {
            rest: self.bytes.as_slice(),
        }
    }
}

impl Duplicate for Listing {
    fn copy(&self) -> Result<Listing, AllocError> {
        let bytes = Vec::from_slice(*self.bytes.allocator(), self.bytes.as_slice())?;
        Ok(Listing { bytes })
    }
}

impl<'a> ListedNames<'a> {
    /// The next name.
    #[tactic(auto, using(crate::proofs::Blocks::is_short, crate::proofs::Blocks::is_whole, crate::proofs::Blocks::next_kept, crate::proofs::Blocks::next_name))]
    pub fn next(&mut self) -> Option<&'a [u8]>
        ensures { MatchOption result ((self.old ≡ []) × (self.new ≡ [])) (λ name. self.old ≡ name.now ∷ self.new) }
    {
        if self.rest.is_empty() {
            return None;
        }
        let (name, behind) = split_name(self.rest);
        self.rest = behind;
        Some(name)
    }
}
