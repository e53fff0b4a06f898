ghost use Rattle.std.specs.Prelude.{◌≡◌, ◌-◌, ◌^◌, ◌<◌, ◌++◌, ◌∷◌, [], List, length, IfOk, OnOk, OnErr};
ghost use Rattle.rules_spec.specs.declared.Batch.{Batch};
ghost use Rattle.rules_spec.specs.Versions.{rights};
ghost use Rattle.rules_spec.specs.Rulings.{ruling};
ghost use Rattle.rule_fold.specs.Index.{ruling_of, StandsFor};
ghost use Rattle.rule_fold.specs.Absorbing.{after_batch};

use crate::policy::Policy;
use rules_spec::Batch;
use smack_base::{Duplicate, LabelId, Modes};
use std::alloc::{AllocError, Global};
use std::marker::Model;

/// The rules and settings of one version, ready to be asked.
#[derive(Drop)]
pub struct RuleIndex {
    policy: Policy,
    version: u32,
}

impl Model for RuleIndex {
    ghost use Rattle.rule_fold.specs.Index.{IndexValue};

    ghost Value = { IndexValue };

    ghost view = { λ r. record {
      entries = r.policy.rules.entries;
      only = r.policy.only.keys;
      ambient = r.policy.ambient;
      ptrace = r.policy.ptrace;
      logging = r.policy.logging;
      version = r.version;
    } };
}

impl RuleIndex {
    /// The index of version 0.
    pub fn new(alloc: Global) -> Result<RuleIndex, AllocError>
        ensures { IfOk result (λ r. StandsFor r []) }
    {
        Ok(RuleIndex {
            policy: Policy::new(alloc),
            version: 0,
        })
    }

    /// Takes the next batch: the index of a version becomes that of the next. On want of memory it
    /// is as before.
    pub fn absorb(&mut self, batch: &Batch) -> Result<(), AllocError>
        requires { self.old.version < 2 ^ 32 - 1 }
        ensures exact { OnOk result (ruling_of self.new ≡ after_batch (ruling_of self.old) batch.now) }
        ensures next { OnOk result ((version : List Batch)
            → StandsFor self.old version → StandsFor self.new (version ++ batch.now ∷ [])) }
        ensures err { OnErr result (self.new ≡ self.old) }
    {
        let ops = batch.ops.items();
        self.policy.rules.reserve(ops.len())?;
        self.policy.only.reserve(ops.len())?;
        self.policy.put_all(ops);
        self.version += 1;
        Ok(())
    }

    /// The modes of the pair's rule; `None` exactly where there is no rule. A rule may have no mode.
    pub fn rights(&self, s: LabelId, o: LabelId) -> Option<Modes>
        ensures exact { result ≡ (ruling_of self.now).rights s o }
        ensures stands { (version : List Batch) → StandsFor self.now version
            → result ≡ rights version s o }
    {
        self.policy.rules.get(&(s.0, o.0)).copied()
    }

    /// Whether the onlycap list is empty.
    pub fn only_empty(&self) -> bool
        ensures exact { result ≡ (ruling_of self.now).only_empty }
        ensures stands { (version : List Batch) → StandsFor self.now version
            → result ≡ (ruling version).only_empty }
    {
        self.policy.only.is_empty()
    }

    /// Whether a label is in the onlycap list.
    pub fn only_holds(&self, l: LabelId) -> bool
        ensures exact { result ≡ (ruling_of self.now).only_holds l }
        ensures stands { (version : List Batch) → StandsFor self.now version
            → result ≡ (ruling version).only_holds l }
    {
        self.policy.only.contains(&l.0)
    }

    /// The ambient label, that of packets from outside: the one written last, `_` at first.
    pub fn ambient(&self) -> LabelId
        ensures exact { result ≡ (ruling_of self.now).ambient }
        ensures stands { (version : List Batch) → StandsFor self.now version
            → result ≡ (ruling version).ambient }
    {
        self.policy.ambient
    }

    /// The ptrace policy that was written last, 0 at first.
    pub fn ptrace(&self) -> u8
        ensures exact { result ≡ (ruling_of self.now).ptrace }
        ensures stands { (version : List Batch) → StandsFor self.now version
            → result ≡ (ruling version).ptrace }
    {
        self.policy.ptrace
    }

    /// The logging mode that was written last, 1 at first.
    pub fn logging(&self) -> u8
        ensures exact { result ≡ (ruling_of self.now).logging }
        ensures stands { (version : List Batch) → StandsFor self.now version
            → result ≡ (ruling version).logging }
    {
        self.policy.logging
    }

    /// The number of the version: how many batches were absorbed.
    pub fn version(&self) -> u32
        ensures exact { result ≡ (ruling_of self.now).number }
        ensures stands { (version : List Batch) → StandsFor self.now version
            → result ≡ length version }
    {
        self.version
    }
}

impl Duplicate for RuleIndex {
    fn copy(&self) -> Result<RuleIndex, AllocError> {
        Ok(RuleIndex {
            policy: self.policy.copy()?,
            version: self.version,
        })
    }
}
