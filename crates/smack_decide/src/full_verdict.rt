ghost use Rattle.std.specs.Prelude.{◌≡◌, List};
ghost use Rattle.rules_spec.specs.declared.Batch.{Batch};
ghost use Rattle.rules_spec.specs.Rulings.{ruling};
ghost use Rattle.rules_spec.specs.Verdicts.{restricts as restricts_modes, restricted, overridden, full_verdict};
ghost use Rattle.rule_fold.specs.Index.{ruling_of, StandsFor};

use crate::ordered_cases::cases;
use crate::privilege::effective;
use rule_fold::RuleIndex;
use rules_spec::Verdict;
use smack_base::{Cap, LabelId, Modes};
use task_creds::Cred;

/// Whether a self rule lacks a mode that is asked for.
fn restricts(rule: Option<Modes>, m: Modes) -> bool
    ensures { result ≡ restricts_modes rule m }
{
    match rule {
        Some(rights) => !rights.has(m),
        None => false,
    }
}

/// Case 8: what the ordered cases allow, a self rule may deny.
fn restrict(rule: Option<Modes>, v: Verdict) -> Verdict
    ensures { result ≡ restricted rule v }
{
    if v.allowed && restricts(rule, v.modes) {
        Verdict {
            allowed: false,
            case: 8,
            ..v
        }
    } else {
        v
    }
}

/// Case 9: privilege over the case that denies.
pub(crate) fn override_denial(privileged: bool, v: Verdict) -> Verdict
    ensures { result ≡ overridden privileged v }
{
    if privileged && !v.allowed {
        Verdict {
            allowed: true,
            case: 9,
            over: v.case,
            ..v
        }
    } else {
        v
    }
}

/// The full verdict of a task's question: the ordered cases, then the self rules of the task (case
/// 8), then its CAP_MAC_OVERRIDE (case 9 over the case that denies). That privilege and self rules
/// are judged last is our own.
pub fn decide(cred: &Cred, rules: &RuleIndex, subject: LabelId, o: LabelId, m: Modes) -> Verdict
    ensures exact { result ≡ full_verdict cred.now (ruling_of rules.now) subject o m }
    ensures stands { (version : List Batch) → StandsFor rules.now version → result ≡ full_verdict cred.now (ruling version) subject o m }
{
    let judged = restrict(cred.self_rule(subject, o), cases(rules, subject, o, m));
    override_denial(effective(cred, Cap::MacOverride, rules), judged)
}
