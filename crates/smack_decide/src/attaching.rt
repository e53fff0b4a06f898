ghost use Rattle.std.specs.Prelude.{◌≡◌, List};
ghost use Rattle.rules_spec.specs.declared.Batch.{Batch};
ghost use Rattle.rules_spec.specs.Rulings.{ruling};
ghost use Rattle.rules_spec.specs.Verdicts.{same_label_verdict, attach_verdict};
ghost use Rattle.rule_fold.specs.Index.{ruling_of, StandsFor};

use crate::full_verdict::{decide, override_denial};
use crate::privilege::effective;
use rule_fold::RuleIndex;
use rules_spec::{READ_WRITE, Verdict};
use smack_base::{Cap, LabelId};
use task_creds::Cred;

/// Case 10: one label on both sides.
fn judge_labels(s: LabelId, o: LabelId) -> Verdict
    ensures { result ≡ same_label_verdict s o }
{
    Verdict {
        allowed: s == o,
        case: 10,
        over: 0,
        subject: s,
        object: o,
        modes: READ_WRITE,
    }
}

fn attach_verdict_now(cred: &Cred, rules: &RuleIndex, target: LabelId) -> Verdict
    ensures { result ≡ attach_verdict cred.now (ruling_of rules.now) target }
{
    let policy = rules.ptrace();
    if policy == 0 {
        decide(cred, rules, cred.label(), target, READ_WRITE)
    } else {
        let privileged = policy == 1 && effective(cred, Cap::SysPtrace, rules);
        override_denial(privileged, judge_labels(cred.label(), target))
    }
}

/// The verdict on attaching by ptrace to a task with the label `target`, its modes `rw` (Smack
/// guide, `ptrace` in its list of smackfs files). Policy 0 is the full verdict. Policies 1 and 2
/// want one label (case 10), and CAP_SYS_PTRACE overrides policy 1 (case 9 over 10). That it is
/// not governed by onlycap, and that CAP_MAC_OVERRIDE overrides neither policy, is our own.
pub fn decide_attach(cred: &Cred, rules: &RuleIndex, target: LabelId) -> Verdict
    ensures exact { result ≡ attach_verdict cred.now (ruling_of rules.now) target }
    ensures stands { (version : List Batch) → StandsFor rules.now version → result ≡ attach_verdict cred.now (ruling version) target }
{
    attach_verdict_now(cred, rules, target)
}
