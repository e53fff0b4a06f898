ghost use Rattle.std.specs.Prelude.{◌≡◌, ◌∷◌, []};
ghost use Rattle.text_spec.specs.Texts.{is_blank};
ghost use Rattle.text_spec.specs.RuleTexts.{long_line, change_line};
ghost use Rattle.rule_text.specs.JudgedWords.{IsWordJudged};
ghost use Rattle.rule_text.specs.Parts.{FitsPlaces, placed, part_words};
ghost use Rattle.rule_text.specs.RuleAnswers.{answer_seen, fields_of, denying};

use crate::part::Part;
use crate::rule_line::{
    RuleLine, fault_of_allow, fault_of_deny, fault_of_judged_object, fault_of_judged_subject,
};
use crate::words::{JudgedWord, Separator, split_label, split_word, word_count};
use text_spec::{BadLine, LineFault};

fn wrong_fields<'a>(line: u32, n: u32) -> Result<RuleLine<'a>, BadLine>
    ensures { result ≡ Err (record { line = line; fault = LineFault.Fields n }) }
{
    Err(BadLine {
        line,
        fault: LineFault::Fields { n },
    })
}

fn judge_long<'a>(
    line: u32,
    subject: JudgedWord<'a>,
    object: JudgedWord<'a>,
    allow: Part<'a>,
) -> Result<RuleLine<'a>, BadLine>
    requires fits { FitsPlaces allow }
    requires subject { IsWordJudged subject }
    requires object { IsWordJudged object }
    ensures { answer_seen result ≡ long_line line
        (placed subject.entry.word ∷ placed object.entry.word ∷ placed allow.entry ∷ []) }
{
    if let Some(fault) = fault_of_judged_subject(subject) {
        return Err(BadLine { line, fault });
    }
    if let Some(fault) = fault_of_judged_object(object) {
        return Err(BadLine { line, fault });
    }
    match fault_of_allow(allow) {
        Some(fault) => Err(BadLine { line, fault }),
        None => Ok(RuleLine {
            line,
            subject: subject.word,
            object: object.word,
            allow,
            deny: None,
        }),
    }
}

/// A line of subject, object and access.
pub(crate) fn read_long<'a>(line: u32, text: Part<'a>) -> Result<RuleLine<'a>, BadLine>
    requires { FitsPlaces text }
    ensures { answer_seen result ≡ long_line line (part_words is_blank text.entry) }
{
    let Some((subject, rest)) = split_label(text) else {
        return wrong_fields(line, 0);
    };
    let Some((object, rest)) = split_label(rest) else {
        return wrong_fields(line, 1);
    };
    let Some((allow, rest)) = split_word(rest, Separator::Blank) else {
        return wrong_fields(line, 2);
    };
    match word_count(rest) {
        0 => judge_long(line, subject, object, allow),
        n => wrong_fields(line, 3 + n),
    }
}

fn with_deny<'a>(rule: RuleLine<'a>, deny: Part<'a>) -> Result<RuleLine<'a>, BadLine>
    requires { FitsPlaces deny }
    ensures { answer_seen result ≡ denying (placed deny.entry) (fields_of rule.entry) }
{
    match fault_of_deny(deny) {
        Some(fault) => Err(BadLine {
            line: rule.line,
            fault,
        }),
        None => Ok(RuleLine {
            deny: Some(deny),
            ..rule
        }),
    }
}

fn judge_change<'a>(
    line: u32,
    subject: JudgedWord<'a>,
    object: JudgedWord<'a>,
    allow: Part<'a>,
    deny: Part<'a>,
) -> Result<RuleLine<'a>, BadLine>
    requires allow_fits { FitsPlaces allow }
    requires deny_fits { FitsPlaces deny }
    requires subject { IsWordJudged subject }
    requires object { IsWordJudged object }
    ensures { answer_seen result ≡ change_line line
        (placed subject.entry.word ∷ placed object.entry.word ∷ placed allow.entry ∷ placed deny.entry ∷ []) }
{
    match judge_long(line, subject, object, allow) {
        Err(bad) => Err(bad),
        Ok(rule) => with_deny(rule, deny),
    }
}

/// A line of subject, object, allow and deny.
pub(crate) fn read_change<'a>(line: u32, text: Part<'a>) -> Result<RuleLine<'a>, BadLine>
    requires { FitsPlaces text }
    ensures { answer_seen result ≡ change_line line (part_words is_blank text.entry) }
{
    let Some((subject, rest)) = split_label(text) else {
        return wrong_fields(line, 0);
    };
    let Some((object, rest)) = split_label(rest) else {
        return wrong_fields(line, 1);
    };
    let Some((allow, rest)) = split_word(rest, Separator::Blank) else {
        return wrong_fields(line, 2);
    };
    let Some((deny, rest)) = split_word(rest, Separator::Blank) else {
        return wrong_fields(line, 3);
    };
    match word_count(rest) {
        0 => judge_change(line, subject, object, allow, deny),
        n => wrong_fields(line, 4 + n),
    }
}
