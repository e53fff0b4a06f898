ghost use Rattle.std.specs.Prelude.{◌≡◌, ◌≤◌, [], length};
ghost use Rattle.std.specs.Vec.{vec_capacity};

use crate::cred::MOST_RELABELS;
use crate::self_rules::MOST_SELF_RULES;
use smack_base::{LabelId, Pair};
use std::alloc::{AllocError, Global};
use std::marker::Model;

/// Memory for a copy of any credentials, found before it is known which they are.
#[derive(Drop)]
pub struct CredRoom {
    pub(crate) self_rules: Vec<Pair>,
    pub(crate) relabels: Vec<LabelId>,
}

impl Model for CredRoom {
    ghost use Rattle.std.specs.Prelude.{◌≡◌, ◌≤◌, []};
    ghost use Rattle.std.specs.Vec.{vec_capacity};
    ghost use Rattle.rules_spec.specs.Creds.{most_self_rules, most_relabels};

    ghost Value = { Unit {0} };

    ghost view = { λ r. tt };

    ghost invariant = { λ r. (r.self_rules.items ≡ []) × (most_self_rules ≤ vec_capacity r.self_rules)
        × (r.relabels.items ≡ []) × (most_relabels ≤ vec_capacity r.relabels) };
}

impl CredRoom {
    /// Finds the memory.
    pub fn new(alloc: Global) -> Result<CredRoom, AllocError> {
        Ok(CredRoom {
            self_rules: Vec::with_capacity(alloc, MOST_SELF_RULES as usize)?,
            relabels: Vec::with_capacity(alloc, MOST_RELABELS as usize)?,
        })
    }
}

/// Puts items into an empty list that has room for them.
pub(crate) fn fill<T: Copy>(list: &mut Vec<T>, items: &[T])
    requires empty { list.old.items ≡ [] }
    requires room { length items.now ≤ vec_capacity list.old }
    ensures { list.new.items ≡ items.now }
{
    list.extend_from_slice(items).unwrap();
}
