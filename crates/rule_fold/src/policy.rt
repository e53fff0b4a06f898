ghost use Rattle.std.specs.Prelude.{◌≡◌, ◌≤◌, ◌<◌, ◌+◌, ◌==◌, [], length, fold, IfOk};
ghost use Rattle.indexmap.specs.IndexMap.{spare, KeepsRoom};
ghost use Rattle.indexmap.specs.IndexSet.{spare as only_spare};
ghost use Rattle.smack_base.specs.declared.ids.LabelId.{LabelId};
ghost use Rattle.rules_spec.specs.Versions.{after_write, after_ambient, after_ptrace, after_logging};
ghost use Rattle.rule_fold.specs.Index.{look, has_number};
ghost use Rattle.rule_fold.specs.Absorbing.{after_empty, after_holds};

use indexmap::{IndexMap, IndexSet};
use smack_base::{LabelId, Modes, RuleOp};
use std::alloc::{AllocError, Global};

/// The rules by the numbers of subject and object.
pub type Rules = IndexMap<(u16, u16), Modes>;

/// The rules and settings that some writes have made.
#[derive(Drop)]
pub struct Policy {
    pub rules: Rules,
    /// The labels of the onlycap list, by number.
    pub only: IndexSet<u16>,
    pub ambient: LabelId,
    pub ptrace: u8,
    pub logging: u8,
}

/// Sets the modes of a pair.
fn set_rule(rules: &mut Rules, s: LabelId, o: LabelId, m: Modes)
    requires { 0 < spare rules.old }
    ensures after { (a b : LabelId)
        → look rules.new.entries a b ≡ after_write a b (look rules.old.entries a b) (RuleOp.Set s o m) }
    ensures room { spare rules.old ≤ spare rules.new + 1 }
{
    let _ = rules.insert((s.0, o.0), m).unwrap();
}

/// Adds to the modes of a pair and takes from them; with no rule it begins from none.
fn change_rule(rules: &mut Rules, s: LabelId, o: LabelId, allow: Modes, deny: Modes)
    requires { 0 < spare rules.old }
    ensures after { (a b : LabelId)
        → look rules.new.entries a b ≡ after_write a b (look rules.old.entries a b) (RuleOp.Change s o allow deny) }
    ensures room { spare rules.old ≤ spare rules.new + 1 }
{
    let before = rules.get(&(s.0, o.0)).copied().unwrap_or(Modes::NONE);
    set_rule(rules, s, o, before.plus(allow).less(deny));
}

/// Takes all modes from the rules of a subject; the rules stay.
fn revoke(rules: &mut Rules, s: LabelId)
    ensures after { (a b : LabelId)
        → look rules.new.entries a b ≡ after_write a b (look rules.old.entries a b) (RuleOp.Revoke s) }
    ensures room { KeepsRoom rules.old rules.new }
{
    rules.retain(|pair, modes| {
        if s.0 == pair.0 {
            *modes = Modes::NONE;
        }
        true
    });
}

/// Puts a label into the onlycap list.
fn add_only(only: &mut IndexSet<u16>, l: LabelId)
    requires { 0 < only_spare only.old }
    ensures empty { (length only.new.keys == 0)
        ≡ after_empty (length only.old.keys == 0) (RuleOp.OnlyAdd l) }
    ensures holds { (a : LabelId)
        → has_number only.new.keys a ≡ after_holds a (has_number only.old.keys a) (RuleOp.OnlyAdd l) }
    ensures room { only_spare only.old ≤ only_spare only.new + 1 }
{
    let _ = only.insert(l.0).unwrap();
}

impl Policy {
    /// No rule, an empty onlycap list, ambient `_`, ptrace 0, logging 1.
    pub fn new(alloc: Global) -> Policy
        ensures rules { result.rules.entries ≡ [] }
        ensures only { result.only.keys ≡ [] }
        ensures ambient { result.ambient ≡ record { 0 = 0 } }
        ensures ptrace { result.ptrace ≡ 0 }
        ensures logging { result.logging ≡ 1 }
    {
        Policy {
            rules: IndexMap::new(alloc),
            only: IndexSet::new(alloc),
            ambient: LabelId::FLOOR,
            ptrace: 0,
            logging: 1,
        }
    }

    /// Puts a write into effect, where there is room for it.
    fn put(&mut self, op: &RuleOp)
        requires rules_room { 0 < spare self.old.rules }
        requires only_room { 0 < only_spare self.old.only }
        ensures rights { (s o : LabelId)
            → look self.new.rules.entries s o ≡ after_write s o (look self.old.rules.entries s o) op.now }
        ensures only_empty { (length self.new.only.keys == 0)
            ≡ after_empty (length self.old.only.keys == 0) op.now }
        ensures only_holds { (l : LabelId)
            → has_number self.new.only.keys l ≡ after_holds l (has_number self.old.only.keys l) op.now }
        ensures ambient { self.new.ambient ≡ after_ambient self.old.ambient op.now }
        ensures ptrace { self.new.ptrace ≡ after_ptrace self.old.ptrace op.now }
        ensures logging { self.new.logging ≡ after_logging self.old.logging op.now }
        ensures rules_used { spare self.old.rules ≤ spare self.new.rules + 1 }
        ensures only_used { only_spare self.old.only ≤ only_spare self.new.only + 1 }
    {
        match op {
            RuleOp::Set { s, o, m } => set_rule(&mut self.rules, *s, *o, *m),
            RuleOp::Change { s, o, allow, deny } => change_rule(
                &mut self.rules,
                *s,
                *o,
                *allow,
                *deny,
            ),
            RuleOp::Revoke { s } => revoke(&mut self.rules, *s),
            RuleOp::OnlyClear => self.only.clear(),
            RuleOp::OnlyAdd { l } => add_only(&mut self.only, *l),
            RuleOp::Ambient { l } => self.ambient = *l,
            RuleOp::Ptrace { n } => self.ptrace = *n,
            RuleOp::Logging { n } => self.logging = *n,
        }
    }

    /// Puts writes into effect in order, where there is room for them.
    pub fn put_all(&mut self, ops: &[RuleOp])
        requires rules_room { length ops.now ≤ spare self.old.rules }
        requires only_room { length ops.now ≤ only_spare self.old.only }
        ensures rights { (s o : LabelId)
            → look self.new.rules.entries s o ≡ fold (after_write s o) (look self.old.rules.entries s o) ops.now }
        ensures only_empty { (length self.new.only.keys == 0)
            ≡ fold after_empty (length self.old.only.keys == 0) ops.now }
        ensures only_holds { (l : LabelId)
            → has_number self.new.only.keys l ≡ fold (after_holds l) (has_number self.old.only.keys l) ops.now }
        ensures ambient { self.new.ambient ≡ fold after_ambient self.old.ambient ops.now }
        ensures ptrace { self.new.ptrace ≡ fold after_ptrace self.old.ptrace ops.now }
        ensures logging { self.new.logging ≡ fold after_logging self.old.logging ops.now }
    {
        for op in ops {
            self.put(op);
        }
    }

    /// The same rules and settings.
    pub fn copy(&self) -> Result<Policy, AllocError>
        ensures rules { IfOk result (λ p. p.rules.entries ≡ self.now.rules.entries) }
        ensures only { IfOk result (λ p. p.only.keys ≡ self.now.only.keys) }
        ensures ambient { IfOk result (λ p. p.ambient ≡ self.now.ambient) }
        ensures ptrace { IfOk result (λ p. p.ptrace ≡ self.now.ptrace) }
        ensures logging { IfOk result (λ p. p.logging ≡ self.now.logging) }
    {
        Ok(Policy {
            rules: self.rules.clone()?,
            only: self.only.clone()?,
            ambient: self.ambient,
            ptrace: self.ptrace,
            logging: self.logging,
        })
    }
}
