ghost use Rattle.std.specs.Prelude.{◌≡◌, ◌≤◌, ◌+◌, ◌∷◌, [], length, MatchOption, IfSome, IfOk, All, Some};
ghost use Rattle.text_spec.specs.Texts.{is_blank, lines_from};
ghost use Rattle.rule_text.specs.Slices.{LiesInALine};
ghost use Rattle.text_spec.specs.RuleTexts.{subject_line, subject_answers_from, subject_answers, before_more};
ghost use Rattle.rule_text.specs.Parts.{FitsPlaces, end_of, lines_of, placed, part_words};
ghost use Rattle.rule_text.specs.LabelAnswers.{seen_word, IsGoodLabel};

use crate::counted::{Found, Skipped, first_counted};
use crate::part::Part;
use crate::words::{Separator, split_word, word_count};
use smack_base::Label;
use std::marker::Model;
use text_spec::{BadLine, LineFault};

/// The subjects of a text that has one in each line, in order, up to the first bad line. A contract
/// sees the answers that are still to come.
#[derive(Drop)]
pub struct SubjectLines<'a> {
    line: u32,
    rest: Part<'a>,
}

impl<'a> Model for SubjectLines<'a> {
    ghost use Rattle.std.specs.Prelude.{List, Result, ◌≤◌, ◌+◌, length};
    ghost use Rattle.text_spec.specs.declared.BadLine.{BadLine as BadLineOf};
    ghost use Rattle.text_spec.specs.Texts.{Placed};
    ghost use Rattle.text_spec.specs.RuleTexts.{subject_answers_from};

    ghost Value = { List (Result Placed BadLineOf) };

    ghost use Rattle.rule_text.specs.Parts.{end_of, lines_of};

    ghost view = { λ s. subject_answers_from s.line (lines_of s.rest) };

    ghost invariant = { λ s. (s.line + length s.rest.bytes.now ≤ 65537) × (end_of s.rest ≤ 65536) };
}

fn wrong_fields<'a>(line: u32, n: u32) -> Result<Part<'a>, BadLine>
    ensures answer { seen_word result ≡ Err (record { line = line; fault = LineFault.Fields n }) }
    ensures good { IsGoodLabel result }
{
    Err(BadLine {
        line,
        fault: LineFault::Fields { n },
    })
}

fn judge_subject<'a>(line: u32, subject: Part<'a>) -> Result<Part<'a>, BadLine>
    ensures answer { seen_word result ≡ subject_line line (placed subject.entry ∷ []) }
    ensures good { IsGoodLabel result }
{
    match Label::fault(subject.bytes) {
        Some(fault) => Err(BadLine {
            line,
            fault: LineFault::Subject(fault),
        }),
        None => Ok(subject),
    }
}

/// A line of one subject.
fn read_subject<'a>(line: u32, text: Part<'a>) -> Result<Part<'a>, BadLine>
    requires { FitsPlaces text }
    ensures answer { seen_word result ≡ subject_line line (part_words is_blank text.entry) }
    ensures good { IsGoodLabel result }
{
    let Some((subject, rest)) = split_word(text, Separator::Blank) else {
        return wrong_fields(line, 0);
    };
    match word_count(rest) {
        0 => judge_subject(line, subject),
        n => wrong_fields(line, 1 + n),
    }
}

/// What the first line is that is not skipped.
fn first_subject<'a>(line: u32, text: Part<'a>) -> Option<Found<'a, Part<'a>>>
    requires count { line + length text.bytes.now ≤ 65537 }
    requires fits { end_of text ≤ 65536 }
    ensures answers { let all = subject_answers_from line (lines_of text.entry) in
        MatchOption result (all ≡ [])
        (λ f. all ≡ before_more (Some (seen_word f.answer))
        (subject_answers_from f.line (lines_of f.rest))) }
    ensures good { IfSome result (λ f. IsGoodLabel f.answer) }
    ensures count { IfSome result (λ f. f.line + length f.rest.bytes.now ≤ 65537) }
    ensures fits { IfSome result (λ f. end_of f.rest ≤ 65536) }
{
    let Some(first) = first_counted(Skipped::Bare, line, text) else {
        return None;
    };
    Some(Found {
        answer: read_subject(first.number, first.line),
        line: first.number + 1,
        rest: first.rest,
    })
}

impl<'a> SubjectLines<'a> {
    /// The subjects of a text of at most 65,536 bytes. Each lies in a line of it.
    #[tactic(auto, using(crate::proofs::SubjectSlices::subjects_in_lines))]
    pub fn of(text: &'a [u8]) -> SubjectLines<'a>
        requires { length text.now ≤ 65536 }
        ensures answers { result ≡ subject_answers text.now }
        ensures own_lines { All (λ answer. IfOk answer (LiesInALine (lines_from 0 text.now))) result }
    {
        SubjectLines {
            line: 1,
            rest: Part { bytes: text, at: 0 },
        }
    }

    /// The subject of the next line that is not skipped, or the first bad line; None where there is
    /// none, and behind a bad one.
    pub fn next(&mut self) -> Option<Result<Part<'a>, BadLine>>
        ensures answer { MatchOption result ((self.old ≡ []) × (self.new ≡ []))
            (λ r. self.old ≡ seen_word r ∷ self.new) }
        ensures good { IfSome result IsGoodLabel }
    {
        let Some(found) = first_subject(self.line, self.rest) else {
            return None;
        };
        self.line = found.line;
        match found.answer {
            Ok(subject) => {
                self.rest = found.rest;
                Some(Ok(subject))
            }
            Err(bad) => {
                self.rest = found.rest.end();
                Some(Err(bad))
            }
        }
    }
}
