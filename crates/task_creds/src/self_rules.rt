ghost use Rattle.std.specs.Prelude.{◌≡◌, ◌<◌, ◌≤◌, length, nat_lt, position, IfSome, IfOk, IfErr, OnOk};
ghost use Rattle.rules_spec.specs.Versions.{same_pair};
ghost use Rattle.rules_spec.specs.Creds.{self_rule, with_self_rule, with_self_rules, most_self_rules};
ghost use Rattle.task_creds.specs.Limits.{IsSelfFault};

use crate::fault::CredFault;
use smack_base::{LabelId, Modes, Pair};
use std::alloc::AllocError;

/// How many self rules a task has at most.
pub(crate) const MOST_SELF_RULES: u32 = 256;

fn place_of(rules: &[Pair], s: LabelId, o: LabelId) -> Option<usize>
    ensures place { result ≡ position (λ p. same_pair p.s p.o s o) rules.now }
    ensures within { IfSome result (λ at. at < length rules.now) }
{
    rules.iter().position(|p| p.s == s && p.o == o)
}

/// The modes of the self rule of a pair.
pub(crate) fn modes_of(rules: &[Pair], s: LabelId, o: LabelId) -> Option<Modes>
    ensures { result ≡ self_rule rules.now s o }
{
    match place_of(rules, s, o) {
        Some(at) => Some(rules[at].m),
        None => None,
    }
}

/// Puts a rule in the place of that of its pair, or last.
fn put(rules: &mut Vec<Pair>, rule: Pair) -> Result<(), AllocError>
    ensures { OnOk result (rules.new.items ≡ with_self_rule rules.old.items rule) }
{
    match place_of(rules.as_slice(), rule.s, rule.o) {
        Some(at) => rules[at] = rule,
        None => rules.push(rule)?,
    }
    Ok(())
}

/// The rules when some more are put among them, in order.
#[tactic(auto, using(crate::proofs::SelfRules::no_fewer_behind))]
pub(crate) fn with_more(rules: &Vec<Pair>, more: &[Pair]) -> Result<Vec<Pair>, CredFault>
    requires { length rules.now.items ≤ most_self_rules }
    ensures rules { IfOk result (λ all. all.items ≡ with_self_rules rules.now.items more.now) }
    ensures room { IfOk result (λ all. length all.items ≤ most_self_rules) }
    ensures full { IfErr result (IsSelfFault (length (with_self_rules rules.now.items more.now))) }
{
    let Ok(mut all) = Vec::from_slice(*rules.allocator(), rules.as_slice()) else {
        return Err(CredFault::Memory);
    };
    for rule in more {
        let Ok(()) = put(&mut all, *rule) else {
            return Err(CredFault::Memory);
        };
        if all.len() > MOST_SELF_RULES as usize {
            return Err(CredFault::SelfFull {
                limit: MOST_SELF_RULES,
            });
        }
    }
    Ok(all)
}

/// Whether more rules would stand than a task may have, when some more are put among them.
pub(crate) fn is_full(rules: &Vec<Pair>, more: &[Pair]) -> Result<bool, AllocError>
    requires { length rules.now.items ≤ most_self_rules }
    ensures { IfOk result (λ full. full ≡ nat_lt most_self_rules (length (with_self_rules rules.now.items more.now))) }
{
    match with_more(rules, more) {
        Ok(_) => Ok(false),
        Err(CredFault::SelfFull { limit: _ }) => Ok(true),
        Err(CredFault::RelabelFull { limit: _ }) => Err(AllocError),
        Err(CredFault::Memory) => Err(AllocError),
    }
}

/// The rules when some more are put among them, where no more stand then than a task may have.
pub(crate) fn joined(rules: &Vec<Pair>, more: &[Pair]) -> Result<Vec<Pair>, AllocError>
    requires before { length rules.now.items ≤ most_self_rules }
    requires after { length (with_self_rules rules.now.items more.now) ≤ most_self_rules }
    ensures rules { IfOk result (λ all. all.items ≡ with_self_rules rules.now.items more.now) }
    ensures room { IfOk result (λ all. length all.items ≤ most_self_rules) }
{
    match with_more(rules, more) {
        Ok(all) => Ok(all),
        Err(_) => Err(AllocError),
    }
}
