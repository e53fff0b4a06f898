ghost use Rattle.std.specs.Prelude.{◌≡◌};
ghost use Rattle.text_spec.specs.RuleTexts.{subject_fault, object_fault, allow_fault, deny_fault};
ghost use Rattle.rule_text.specs.JudgedWords.{IsWordJudged};
ghost use Rattle.rule_text.specs.Parts.{FitsPlaces, placed};

use crate::part::Part;
use crate::words::JudgedWord;
use smack_base::{Label, Modes};
use text_spec::LineFault;

/// A good line of rules: its number in the text, from 1, and its fields, each at its place in the
/// text.
#[derive(Clone, Copy)]
pub struct RuleLine<'a> {
    pub line: u32,
    pub subject: Part<'a>,
    pub object: Part<'a>,
    pub allow: Part<'a>,
    /// The modes to be taken away, which only a line of changes has.
    pub deny: Option<Part<'a>>,
}

pub(crate) fn fault_of_subject(subject: Part) -> Option<LineFault>
    ensures { result ≡ subject_fault (placed subject.entry) }
{
    match Label::fault(subject.bytes) {
        Some(fault) => Some(LineFault::Subject(fault)),
        None => None,
    }
}

pub(crate) fn fault_of_object(object: Part) -> Option<LineFault>
    ensures { result ≡ object_fault (placed object.entry) }
{
    match Label::fault(object.bytes) {
        Some(fault) => Some(LineFault::Object(fault)),
        None => None,
    }
}

pub(crate) fn fault_of_allow(allow: Part) -> Option<LineFault>
    requires { FitsPlaces allow }
    ensures { result ≡ allow_fault (placed allow.entry) }
{
    match Modes::first_bad(allow.bytes) {
        Some(at) => Some(LineFault::Allow { at: at as u32 }),
        None => None,
    }
}

pub(crate) fn fault_of_deny(deny: Part) -> Option<LineFault>
    requires { FitsPlaces deny }
    ensures { result ≡ deny_fault (placed deny.entry) }
{
    match Modes::first_bad(deny.bytes) {
        Some(at) => Some(LineFault::Deny { at: at as u32 }),
        None => None,
    }
}

pub(crate) fn fault_of_judged_subject(subject: JudgedWord) -> Option<LineFault>
    requires { IsWordJudged subject }
    ensures { result ≡ subject_fault (placed subject.entry.word) }
{
    if subject.is_label {
        None
    } else {
        fault_of_subject(subject.word)
    }
}

pub(crate) fn fault_of_judged_object(object: JudgedWord) -> Option<LineFault>
    requires { IsWordJudged object }
    ensures { result ≡ object_fault (placed object.entry.word) }
{
    if object.is_label {
        None
    } else {
        fault_of_object(object.word)
    }
}
