ghost use Rattle.std.specs.Prelude.{◌≡◌, ◌||◌, List};
ghost use Rattle.rules_spec.specs.declared.Batch.{Batch};
ghost use Rattle.rules_spec.specs.Rulings.{ruling};
ghost use Rattle.rules_spec.specs.Creds.{is_trace as is_trace_cap, is_effective};
ghost use Rattle.rule_fold.specs.Index.{ruling_of, StandsFor};

use rule_fold::RuleIndex;
use smack_base::{Cap, LabelId};
use task_creds::Cred;

/// Whether a capability is CAP_SYS_PTRACE, which the onlycap list does not govern.
fn is_trace(cap: Cap) -> bool
    ensures { result ≡ is_trace_cap cap }
{
    match cap {
        Cap::MacAdmin => false,
        Cap::MacOverride => false,
        Cap::SysPtrace => true,
    }
}

/// Whether the onlycap list leaves a capability to a task with this label.
fn is_left_to(rules: &RuleIndex, cap: Cap, label: LabelId) -> bool
    ensures { result ≡ (is_trace_cap cap || (ruling_of rules.now).only_empty || (ruling_of rules.now).only_holds label) }
{
    is_trace(cap) || rules.only_empty() || rules.only_holds(label)
}

fn is_effective_now(cred: &Cred, cap: Cap, rules: &RuleIndex) -> bool
    ensures { result ≡ is_effective cred.now cap (ruling_of rules.now) }
{
    cred.holds(cap) && is_left_to(rules, cap, cred.label())
}

/// Whether a capability is effective for a task: it holds it, and the onlycap list is empty or has
/// its label (Smack guide, "Privilege", and `onlycap` in its list of smackfs files; that
/// CAP_SYS_PTRACE is not governed by the list is our own).
pub fn effective(cred: &Cred, cap: Cap, rules: &RuleIndex) -> bool
    ensures exact { result ≡ is_effective cred.now cap (ruling_of rules.now) }
    ensures stands { (version : List Batch) → StandsFor rules.now version → result ≡ is_effective cred.now cap (ruling version) }
{
    is_effective_now(cred, cap, rules)
}
