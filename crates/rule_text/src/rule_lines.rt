ghost use Rattle.std.specs.Prelude.{◌≡◌, ◌≤◌, ◌+◌, ◌∷◌, [], false, length, MatchOption, IfSome, IfOk, All, Some};
ghost use Rattle.text_spec.specs.Texts.{lines_from};
ghost use Rattle.rule_text.specs.Slices.{LiesInItsLine};
ghost use Rattle.text_spec.specs.RuleTexts.{line_answer, line_answers, rule_answers, before_more};
ghost use Rattle.rule_text.specs.Parts.{end_of, lines_of, placed, as_line};
ghost use Rattle.rule_text.specs.Counted.{is_skipped_as, skipped_by as skipped_by_form};
ghost use Rattle.rule_text.specs.RuleAnswers.{answer_seen, IsGood};

use crate::counted::{Found, Skipped, first_counted};
use crate::part::Part;
use crate::rule_line::RuleLine;
use crate::short_line::read_short;
use crate::worded_line::{read_change, read_long};
use std::marker::Model;
use text_spec::{BadLine, RuleForm};

/// The lines of a text of rules, in order, up to the first bad one. A contract sees the answers
/// that are still to come.
#[derive(Drop)]
pub struct RuleLines<'a> {
    form: RuleForm,
    line: u32,
    rest: Part<'a>,
}

impl<'a> Model for RuleLines<'a> {
    ghost use Rattle.std.specs.Prelude.{List, Result, ◌≤◌, ◌+◌, length};
    ghost use Rattle.text_spec.specs.declared.BadLine.{BadLine as BadLineOf};
    ghost use Rattle.text_spec.specs.RuleTexts.{RuleWords, line_answers};

    ghost Value = { List (Result RuleWords BadLineOf) };

    ghost use Rattle.rule_text.specs.Parts.{end_of, lines_of};

    ghost view = { λ s. line_answers s.form s.line (lines_of s.rest) };

    ghost invariant = { λ s. (s.line + length s.rest.bytes.now ≤ 65537) × (end_of s.rest ≤ 65536) };
}

fn skipped_by(form: RuleForm) -> Skipped
    ensures { result ≡ skipped_by_form form }
{
    match form {
        RuleForm::Long | RuleForm::Change => Skipped::Bare,
        RuleForm::Short => Skipped::Empty,
    }
}

/// What a line of this form is that is not skipped.
fn read_line<'a>(form: RuleForm, line: u32, text: Part<'a>) -> Result<RuleLine<'a>, BadLine>
    requires fits { end_of text ≤ 65536 }
    requires is { is_skipped_as (skipped_by_form form) (placed text) ≡ false }
    ensures answer { Some (answer_seen result) ≡ line_answer form line (as_line text.entry) }
    ensures good { IsGood result }
{
    match form {
        RuleForm::Long => read_long(line, text),
        RuleForm::Change => read_change(line, text),
        RuleForm::Short => read_short(line, text),
    }
}

/// What the first line is that is not skipped.
fn first_answer<'a>(form: RuleForm, line: u32, text: Part<'a>) -> Option<Found<'a, RuleLine<'a>>>
    requires count { line + length text.bytes.now ≤ 65537 }
    requires fits { end_of text ≤ 65536 }
    ensures answers { let all = line_answers form line (lines_of text.entry) in
        MatchOption result (all ≡ [])
        (λ f. all ≡ before_more (Some (answer_seen f.answer))
        (line_answers form f.line (lines_of f.rest))) }
    ensures good { IfSome result (λ f. IsGood f.answer) }
    ensures count { IfSome result (λ f. f.line + length f.rest.bytes.now ≤ 65537) }
    ensures fits { IfSome result (λ f. end_of f.rest ≤ 65536) }
{
    let Some(first) = first_counted(skipped_by(form), line, text) else {
        return None;
    };
    Some(Found {
        answer: read_line(form, first.number, first.line),
        line: first.number + 1,
        rest: first.rest,
    })
}

impl<'a> RuleLines<'a> {
    /// The lines of a text of this form, at most 65,536 bytes. Each part of a line lies in the line
    /// of that number.
    #[tactic(auto, using(crate::proofs::RuleSlices::rules_in_lines))]
    pub fn of(text: &'a [u8], form: RuleForm) -> RuleLines<'a>
        requires { length text.now ≤ 65536 }
        ensures answers { result ≡ rule_answers form text.now }
        ensures own_lines { All (λ answer. IfOk answer (LiesInItsLine 1 (lines_from 0 text.now))) result }
    {
        RuleLines {
            form,
            line: 1,
            rest: Part { bytes: text, at: 0 },
        }
    }

    /// The next line that is not skipped, or the first bad one; None where there is none, and
    /// behind a bad one.
    pub fn next(&mut self) -> Option<Result<RuleLine<'a>, BadLine>>
        ensures answer { MatchOption result ((self.old ≡ []) × (self.new ≡ []))
            (λ r. self.old ≡ answer_seen r ∷ self.new) }
        ensures good { IfSome result IsGood }
    {
        let Some(found) = first_answer(self.form, self.line, self.rest) else {
            return None;
        };
        self.line = found.line;
        match found.answer {
            Ok(rule) => {
                self.rest = found.rest;
                Some(Ok(rule))
            }
            Err(bad) => {
                self.rest = found.rest.end();
                Some(Err(bad))
            }
        }
    }
}
