ghost use Rattle.std.specs.Prelude.{◌≡◌, Some, IfSome};
ghost use Rattle.std.specs.Option.{option_map};
ghost use Rattle.log_spec.specs.Audits.{outcome, Audited, IsAudited, audit_text};
ghost use Rattle.audit_line.specs.Values.{seen_values};
ghost use Rattle.audit_line.specs.Parts.{parts_seen, texts_of};

use crate::values::{Values, read_values};
use crate::words::{is_label, is_word, read_action, read_case, read_modes};
use log_spec::Action;
use smack_base::Modes;

/// What a line of the system's log tells of a check.
#[derive(Clone, Copy, Debug, PartialEq, Eq)]
pub struct AuditParts<'a> {
    /// Whether the check was granted.
    pub granted: bool,
    /// The verb of the call: one or more bytes from `!` to `~`.
    pub verb: &'a [u8],
    /// The label of the subject.
    pub subject: &'a [u8],
    /// The label of the object.
    pub object: &'a [u8],
    /// The access modes that were asked for.
    pub modes: Modes,
    /// The number of the case that decided.
    pub case: u8,
}

fn is_granted(action: Action) -> bool
    ensures { outcome result ≡ action }
{
    match action {
        Action::Granted => true,
        Action::Denied => false,
    }
}

fn read_parts<'a>(values: Values<'a>) -> Option<AuditParts<'a>>
    ensures is { IfSome result (λ p. IsAudited (parts_seen p)
        × (seen_values values.entry ≡ texts_of (parts_seen p))) }
    ensures all { (a : Audited) → IsAudited a → seen_values values.entry ≡ texts_of a
        → option_map parts_seen result ≡ Some a }
{
    let action = read_action(values.action)?;
    let modes = read_modes(values.modes)?;
    let case = read_case(values.case)?;
    if !is_word(values.verb) || !is_label(values.subject) || !is_label(values.object) {
        return None;
    }
    Some(AuditParts {
        granted: is_granted(action),
        verb: values.verb,
        subject: values.subject,
        object: values.object,
        modes,
        case,
    })
}

/// What a line of the system's log tells, read from its bytes, its line feed with them; None exactly
/// where the bytes are not the line of a check.
pub fn read_line<'a>(line: &'a [u8]) -> Option<AuditParts<'a>>
    ensures is { IfSome result (λ p. IsAudited (parts_seen p)
        × (line.now ≡ audit_text (parts_seen p))) }
    ensures all { (a : Audited) → IsAudited a → line.now ≡ audit_text a
        → option_map parts_seen result ≡ Some a }
{
    match read_values(line) {
        Some(values) => read_parts(values),
        None => None,
    }
}
