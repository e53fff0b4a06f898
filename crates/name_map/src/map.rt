ghost use Rattle.std.specs.Prelude.{◌≡◌, ℕ, [], List, cond, length, drop, take, Some, None, IfOk, OnOk, OnErr};
ghost use Rattle.std.specs.Str.{bytes_eq};
ghost use Rattle.name_map.specs.Names.{number_of, names_in, Rises};
ghost use Rattle.tree_spec.specs.Listed.{listed_from};

use smack_base::Bytes;
use std::alloc::{AllocError, Global};
use std::collections::BTreeMap;
use std::marker::Model;
use tree_spec::Listing;

/// The most names of one listing.
const MOST_NAMES: u32 = 16;

/// Names in byte order, each with a number.
#[derive(Drop)]
pub struct NameMap {
    map: BTreeMap<Vec<u8>, u32>,
}

impl Model for NameMap {
    ghost use Rattle.std.specs.Prelude.{List, ℕ};
    ghost use Rattle.name_map.specs.Names.{numbered};

    ghost Value = { List (List ℕ × ℕ) };

    ghost view = { λ m. numbered (λ k. k.items) m.map.entries };
}

impl NameMap {
    /// No names.
    pub fn new(alloc: Global) -> NameMap
        ensures { result ≡ [] }
    {
        NameMap {
            map: BTreeMap::new(alloc),
        }
    }

    /// The number of a name, where it has one.
    pub fn get(&self, name: &[u8]) -> Option<u32>
        ensures { result ≡ number_of self.now name.now }
    {
        self.map.get(name).copied()
    }

    /// How many names there are.
    pub fn len(&self) -> usize
        ensures count { result ≡ length self.now }
        ensures rises { Rises (names_in self.now) }
    {
        self.map.len()
    }

    /// Gives a name a number. On want of memory nothing changes.
    pub fn insert(&mut self, name: Bytes, number: u32) -> Result<(), AllocError>
        ensures ok { OnOk result ((q : List ℕ) → number_of self.new q ≡ cond (bytes_eq name q) (Some number) (number_of self.old q)) }
        ensures err { OnErr result (self.new ≡ self.old) }
    {
        let Ok(_) = self.map.insert(name.into_vec(), number) else {
            return Err(AllocError);
        };
        Ok(())
    }

    /// Takes a name out, where it is there.
    pub fn remove(&mut self, name: &[u8])
        ensures { (q : List ℕ) → number_of self.new q ≡ cond (bytes_eq name.now q) None (number_of self.old q) }
    {
        let _ = self.map.remove(name);
    }

    /// The names of one listing, from this place on, counted from 0.
    pub fn listed(&self, alloc: Global, at: u32) -> Result<Listing, AllocError>
        ensures names { IfOk result (λ list. list ≡ listed_from at (names_in self.now)) }
        ensures rises { Rises (names_in self.now) }
    {
        let mut ahead = at;
        let mut wanted = MOST_NAMES;
        let mut list = Listing::new(alloc);
        for name in self.map.keys() {
            if 0 < ahead {
                ahead -= 1;
                continue;
            }
            if wanted == 0 {
                return Ok(list);
            }
            list.push(name.as_slice())?;
            wanted -= 1;
        }
        Ok(list)
    }
}
