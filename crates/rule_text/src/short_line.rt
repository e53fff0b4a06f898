ghost use Rattle.std.specs.Prelude.{◌≡◌, ◌<◌, ◌≤◌, ◌+◌, not, length, position, reverse, IfSome};
ghost use Rattle.text_spec.specs.Texts.{is_space};
ghost use Rattle.text_spec.specs.RuleTexts.{front_spaces, trimmed, field, short_label_fault, is_short_letter as is_letter_of_short, short_bad_letter, short_fields, short_line};
ghost use Rattle.rule_text.specs.Parts.{FitsPlaces, end_of, placed, as_line};
ghost use Rattle.rule_text.specs.RuleAnswers.{answer_seen};

use crate::part::Part;
use crate::rule_line::RuleLine;
use crate::words::{Separator, blank_len};
use smack_base::{Label, LabelFault};
use text_spec::{BadLine, LineFault};

fn last_bare(bytes: &[u8]) -> Option<usize>
    ensures { result ≡ position (λ b. not (is_space b)) (reverse bytes.now) }
{
    bytes.iter().rev().position(|b| *b != b' ')
}

/// How many spaces stand at the end.
#[tactic(auto, using(crate::proofs::Trimmed::no_place_behind, crate::proofs::Trimmed::spaces_within))]
fn end_spaces(bytes: &[u8]) -> usize
    ensures place { result ≡ front_spaces (reverse bytes.now) }
    ensures within { result ≤ length bytes.now }
{
    match last_bare(bytes) {
        Some(at) => at,
        None => bytes.len(),
    }
}

/// The field without the spaces at both ends.
fn trim<'a>(field: Part<'a>) -> Part<'a>
    requires { FitsPlaces field }
    ensures bytes { placed result ≡ trimmed (placed field.entry) }
    ensures within { end_of result ≤ end_of field.entry }
{
    let bare = field.after(blank_len(Separator::Space, field.bytes));
    bare.front(bare.bytes.len() - end_spaces(bare.bytes))
}

/// The field of this length at this offset of a line.
fn field_at<'a>(line: Part<'a>, from: usize, len: usize) -> Part<'a>
    requires within { from + len ≤ length line.bytes.now }
    requires fits { FitsPlaces line }
    ensures bytes { placed result ≡ field from len (as_line line.entry) }
    ensures within { end_of result ≤ end_of line.entry }
{
    trim(line.after(from).front(len))
}

fn fault_of_short_label(text: &[u8]) -> Option<LabelFault>
    ensures { result ≡ short_label_fault text.now }
{
    if text.len() > 23 {
        return Some(LabelFault::TooLong);
    }
    Label::fault(text)
}

fn is_short_letter(b: u8) -> bool
    ensures { result ≡ is_letter_of_short b }
{
    matches!(
        b,
        b'r' | b'R' | b'w' | b'W' | b'x' | b'X' | b'a' | b'A' | b't' | b'T' | b'-'
    )
}

fn bad_short_letter(text: &[u8]) -> Option<usize>
    ensures place { result ≡ short_bad_letter text.now }
    ensures within { IfSome result (λ at. at < length text.now) }
{
    text.iter().position(|b| !is_short_letter(*b))
}

fn judge_short<'a>(
    line: u32,
    subject: Part<'a>,
    object: Part<'a>,
    allow: Part<'a>,
) -> Result<RuleLine<'a>, BadLine>
    requires { FitsPlaces allow }
    ensures { answer_seen result ≡
        short_fields line (placed subject.entry) (placed object.entry) (placed allow.entry) }
{
    if let Some(fault) = fault_of_short_label(subject.bytes) {
        return Err(BadLine {
            line,
            fault: LineFault::Subject(fault),
        });
    }
    if let Some(fault) = fault_of_short_label(object.bytes) {
        return Err(BadLine {
            line,
            fault: LineFault::Object(fault),
        });
    }
    match bad_short_letter(allow.bytes) {
        Some(at) => Err(BadLine {
            line,
            fault: LineFault::Allow { at: at as u32 },
        }),
        None => Ok(RuleLine {
            line,
            subject,
            object,
            allow,
            deny: None,
        }),
    }
}

/// A line of 53 bytes: subject 24, object 24, access 5.
pub(crate) fn read_short<'a>(line: u32, text: Part<'a>) -> Result<RuleLine<'a>, BadLine>
    requires { FitsPlaces text }
    ensures { answer_seen result ≡ short_line line (as_line text.entry) }
{
    if text.bytes.len() == 53 {
        return judge_short(
            line,
            field_at(text, 0, 24),
            field_at(text, 24, 24),
            field_at(text, 48, 5),
        );
    }
    Err(BadLine {
        line,
        fault: LineFault::Width {
            n: text.bytes.len() as u32,
        },
    })
}
