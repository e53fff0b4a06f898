ghost use Rattle.std.specs.Prelude.{◌≡◌, List, true};
ghost use Rattle.rules_spec.specs.declared.Batch.{Batch};
ghost use Rattle.rules_spec.specs.Rulings.{ruling};
ghost use Rattle.rules_spec.specs.Cases.{only_reads as only_reads_of, ruled, allowed_by, denied_by, verdict_by, verdict_of_cases};
ghost use Rattle.rule_fold.specs.Index.{ruling_of, StandsFor};

use rule_fold::RuleIndex;
use rules_spec::{READ_EXECUTE, Verdict};
use smack_base::{LabelId, Modes};

/// Whether each mode that is asked for is read or execute.
fn only_reads(m: Modes) -> bool
    ensures { result ≡ only_reads_of m }
{
    READ_EXECUTE.has(m)
}

/// Whether there is a rule, and it has every mode that is asked for.
fn is_ruled(rule: Option<Modes>, m: Modes) -> bool
    ensures { result ≡ ruled rule m }
{
    match rule {
        Some(rights) => rights.has(m),
        None => false,
    }
}

/// The answer, and the number of the first case that applies.
fn first_case(rules: &RuleIndex, s: LabelId, o: LabelId, m: Modes) -> (bool, u8)
    ensures { verdict_by (record { applies = true; allowed = result.0; number = result.1 }) s o m ≡ verdict_of_cases (ruling_of rules.now) s o m }
{
    if s == LabelId::STAR {
        (false, 1)
    } else if s == LabelId::HAT && only_reads(m) {
        (true, 2)
    } else if o == LabelId::FLOOR && only_reads(m) {
        (true, 3)
    } else if o == LabelId::STAR {
        (true, 4)
    } else if s == o {
        (true, 5)
    } else if is_ruled(rules.rights(s, o), m) {
        (true, 6)
    } else {
        (false, 7)
    }
}

/// The verdict of the ordered cases 1 to 7 (Smack guide, "Access Rules"). The empty set of modes
/// walks the same cases.
pub fn cases(rules: &RuleIndex, s: LabelId, o: LabelId, m: Modes) -> Verdict
    ensures exact { result ≡ verdict_of_cases (ruling_of rules.now) s o m }
    ensures stands { (version : List Batch) → StandsFor rules.now version → result ≡ verdict_of_cases (ruling version) s o m }
{
    let (allowed, case) = first_case(rules, s, o, m);
    Verdict {
        allowed,
        case,
        over: 0,
        subject: s,
        object: o,
        modes: m,
    }
}
