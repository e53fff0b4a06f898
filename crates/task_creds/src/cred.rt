ghost use Rattle.std.specs.Prelude.{◌≡◌, ◌≤◌, [], length, nat_lt, IfOk, OnOk, OnErr, IfErr};
ghost use Rattle.rules_spec.specs.Creds.{creds_first, holds_cap, without_cap, with_label, self_rule, with_self_rules, is_listed, most_self_rules, most_relabels};
ghost use Rattle.task_creds.specs.SelfRules.{ArePairsApart};
ghost use Rattle.task_creds.specs.Limits.{IsSelfFault, IsRelabelFault};

use crate::fault::CredFault;
use crate::room::{CredRoom, fill};
use crate::self_rules::{is_full, joined, modes_of, with_more};
use smack_base::{Cap, Duplicate, Ids, LabelId, Modes, Pair, Pairs};
use std::alloc::{AllocError, Global};
use std::marker::Model;

/// How many labels a relabel list has at most.
pub(crate) const MOST_RELABELS: u32 = 256;

/// The credentials of a task.
#[derive(Drop)]
pub struct Cred {
    label: LabelId,
    mac_admin: bool,
    mac_override: bool,
    sys_ptrace: bool,
    self_rules: Vec<Pair>,
    relabels: Vec<LabelId>,
}

impl Model for Cred {
    ghost use Rattle.std.specs.Prelude.{◌≤◌, length};
    ghost use Rattle.rules_spec.specs.Creds.{Creds, most_self_rules, most_relabels};
    ghost use Rattle.task_creds.specs.SelfRules.{ArePairsApart};

    ghost Value = { Creds };

    ghost view = { λ c. record {
      label = c.label;
      mac_admin = c.mac_admin;
      mac_override = c.mac_override;
      sys_ptrace = c.sys_ptrace;
      self_rules = c.self_rules.items;
      relabels = c.relabels.items;
    } };

    ghost invariant = { λ c. (length c.self_rules.items ≤ most_self_rules) × ArePairsApart c.self_rules.items × (length c.relabels.items ≤ most_relabels) };
}

impl Cred {
    /// The credentials of the first task: the floor label, each capability, and empty lists. Takes
    /// no memory.
    pub fn first(alloc: Global) -> Cred
        ensures { result ≡ creds_first }
    {
        Cred {
            label: LabelId::FLOOR,
            mac_admin: true,
            mac_override: true,
            sys_ptrace: true,
            self_rules: Vec::new(alloc),
            relabels: Vec::new(alloc),
        }
    }

    /// The label of the task.
    pub fn label(&self) -> LabelId
        ensures { result ≡ self.now.label }
    {
        self.label
    }

    /// Whether the task holds a capability.
    pub fn holds(&self, cap: Cap) -> bool
        ensures { result ≡ holds_cap self.now cap }
    {
        match cap {
            Cap::MacAdmin => self.mac_admin,
            Cap::MacOverride => self.mac_override,
            Cap::SysPtrace => self.sys_ptrace,
        }
    }

    /// The modes of the self rule of a pair; `None` exactly where no self rule of that pair stands.
    pub fn self_rule(&self, s: LabelId, o: LabelId) -> Option<Modes>
        ensures { result ≡ self_rule self.now.self_rules s o }
    {
        modes_of(self.self_rules.as_slice(), s, o)
    }

    /// The self rules, the pair that came first in front: at most 256, each of a pair of its own.
    pub fn self_rules(&self) -> &[Pair]
        ensures rules { result.now ≡ self.now.self_rules }
        ensures limit { length self.now.self_rules ≤ most_self_rules }
        ensures apart { ArePairsApart self.now.self_rules }
    {
        self.self_rules.as_slice()
    }

    /// Whether the task may take a label by its relabel list.
    pub fn listed(&self, l: LabelId) -> bool
        ensures { result ≡ is_listed self.now l }
    {
        self.relabels.iter().any(|x| *x == l)
    }

    /// The relabel list, at most 256 labels.
    pub fn relabels(&self) -> &[LabelId]
        ensures labels { result.now ≡ self.now.relabels }
        ensures limit { length self.now.relabels ≤ most_relabels }
    {
        self.relabels.as_slice()
    }

    /// The task has this label from now on.
    pub fn set_label(&mut self, l: LabelId)
        ensures { self.new ≡ with_label self.old l }
    {
        self.label = l;
    }

    /// The task no longer holds the capability.
    pub fn drop_cap(&mut self, cap: Cap)
        ensures { self.new ≡ without_cap self.old cap }
    {
        match cap {
            Cap::MacAdmin => self.mac_admin = false,
            Cap::MacOverride => self.mac_override = false,
            Cap::SysPtrace => self.sys_ptrace = false,
        }
    }

    /// Whether more than 256 self rules would stand with these among them.
    pub fn self_full(&self, rules: &Pairs) -> Result<bool, AllocError>
        ensures { IfOk result (λ full. full ≡ nat_lt most_self_rules (length (with_self_rules self.now.self_rules rules.now))) }
    {
        is_full(&self.self_rules, rules.items())
    }

    /// Each rule, in order, takes the place of the self rule of its pair, or comes last, where no
    /// more than 256 then stand. On want of memory nothing changes.
    pub fn put_self(&mut self, rules: &Pairs) -> Result<(), AllocError>
        requires { length (with_self_rules self.old.self_rules rules.now) ≤ most_self_rules }
        ensures ok { OnOk result (self.new ≡ record self.old { self_rules = with_self_rules self.old.self_rules rules.now }) }
        ensures err { OnErr result (self.new ≡ self.old) }
    {
        self.self_rules = joined(&self.self_rules, rules.items())?;
        Ok(())
    }

    /// The relabel list is these labels, where they are no more than 256. On want of memory nothing
    /// changes.
    pub fn put_list(&mut self, labels: &Ids) -> Result<(), AllocError>
        requires { length labels.now ≤ most_relabels }
        ensures ok { OnOk result (self.new ≡ record self.old { relabels = labels.now }) }
        ensures err { OnErr result (self.new ≡ self.old) }
    {
        self.relabels = Vec::from_slice(*self.relabels.allocator(), labels.items())?;
        Ok(())
    }

    /// Each rule, in order, takes the place of the self rule of its pair, or comes last. `SelfFull`
    /// comes exactly where more than 256 self rules would stand. On an error nothing changes.
    pub fn add_self(&mut self, rules: &Pairs) -> Result<(), CredFault>
        ensures ok { OnOk result (self.new ≡ record self.old { self_rules = with_self_rules self.old.self_rules rules.now }) }
        ensures room { OnOk result (length self.new.self_rules ≤ most_self_rules) }
        ensures full { IfErr result (IsSelfFault (length (with_self_rules self.old.self_rules rules.now))) }
        ensures err { OnErr result (self.new ≡ self.old) }
    {
        match with_more(&self.self_rules, rules.items()) {
            Ok(all) => {
                self.self_rules = all;
                Ok(())
            }
            Err(fault) => Err(fault),
        }
    }

    /// The relabel list is these labels. `RelabelFull` comes exactly where they are more than 256.
    /// On an error nothing changes.
    pub fn set_list(&mut self, labels: &Ids) -> Result<(), CredFault>
        ensures ok { OnOk result (self.new ≡ record self.old { relabels = labels.now }) }
        ensures room { OnOk result (length labels.now ≤ most_relabels) }
        ensures full { IfErr result (IsRelabelFault (length labels.now)) }
        ensures err { OnErr result (self.new ≡ self.old) }
    {
        if labels.items().len() > MOST_RELABELS as usize {
            return Err(CredFault::RelabelFull {
                limit: MOST_RELABELS,
            });
        }
        match self.put_list(labels) {
            Ok(()) => Ok(()),
            Err(_) => Err(CredFault::Memory),
        }
    }

    /// The relabel list is empty.
    pub fn clear_list(&mut self)
        ensures { self.new ≡ record self.old { relabels = [] } }
    {
        self.relabels.clear();
    }

    /// A copy in memory that was found before; takes none.
    pub fn copy_into(&self, room: CredRoom) -> Cred
        ensures { result ≡ self.now }
    {
        let CredRoom {
            mut self_rules,
            mut relabels,
        } = room;
        fill(&mut self_rules, self.self_rules.as_slice());
        fill(&mut relabels, self.relabels.as_slice());
        Cred {
            label: self.label,
            mac_admin: self.mac_admin,
            mac_override: self.mac_override,
            sys_ptrace: self.sys_ptrace,
            self_rules,
            relabels,
        }
    }
}

impl Duplicate for Cred {
    fn copy(&self) -> Result<Cred, AllocError> {
        let self_rules = Vec::from_slice(*self.self_rules.allocator(), self.self_rules.as_slice())?;
        let relabels = Vec::from_slice(*self.relabels.allocator(), self.relabels.as_slice())?;
        Ok(Cred {
            label: self.label,
            mac_admin: self.mac_admin,
            mac_override: self.mac_override,
            sys_ptrace: self.sys_ptrace,
            self_rules,
            relabels,
        })
    }
}
