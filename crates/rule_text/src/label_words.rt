ghost use Rattle.std.specs.Prelude.{◌≡◌, ◌≤◌, ◌∷◌, [], length, MatchOption, IfSome, IfOk, All};
ghost use Rattle.text_spec.specs.Texts.{lines_from};
ghost use Rattle.rule_text.specs.Parts.{placed};
ghost use Rattle.rule_text.specs.Slices.{LiesInALine};
ghost use Rattle.text_spec.specs.RuleTexts.{all_words, words_answers, label_answers, only_word, is_dash, list_word};
ghost use Rattle.rule_text.specs.LeftWords.{left_words, line_word, IsShort};
ghost use Rattle.rule_text.specs.LabelAnswers.{seen_word, is_sole_dash, IsGoodLabel};

use crate::part::Part;
use crate::text_words::{NextWord, TextWords};
use smack_base::Label;
use std::marker::Model;
use text_spec::{BadLine, LineFault};

/// The labels of a text, over all its lines, up to the first word that is none. A contract sees
/// the answers that are still to come.
#[derive(Drop)]
pub struct LabelWords<'a> {
    left: TextWords<'a>,
}

impl<'a> Model for LabelWords<'a> {
    ghost use Rattle.std.specs.Prelude.{List, Result};
    ghost use Rattle.text_spec.specs.declared.BadLine.{BadLine as BadLineOf};
    ghost use Rattle.text_spec.specs.Texts.{Placed};
    ghost use Rattle.text_spec.specs.RuleTexts.{words_answers};

    ghost Value = { List (Result Placed BadLineOf) };

    ghost use Rattle.rule_text.specs.LeftWords.{left_words, IsShort};

    ghost view = { λ s. words_answers (left_words s.left) };

    ghost invariant = { λ s. IsShort s.left };
}

fn is_dash_alone(bytes: &[u8]) -> bool
    ensures { result ≡ is_dash bytes.now }
{
    match bytes {
        [b] => *b == b'-',
        _ => false,
    }
}

/// Whether the only word that is left is a dash.
fn is_only_dash(words: TextWords) -> bool
    requires { IsShort words }
    ensures { result ≡ is_sole_dash (left_words words.entry) }
{
    match words.next() {
        Some(first) => is_dash_alone(first.word.bytes) && first.left.next().is_none(),
        None => false,
    }
}

/// The label that a word is.
fn read_label<'a>(next: NextWord<'a>) -> Result<Part<'a>, BadLine>
    ensures word { seen_word result ≡ list_word (line_word next.entry) }
    ensures good { IsGoodLabel result }
{
    match Label::fault(next.word.bytes) {
        Some(fault) => Err(BadLine {
            line: next.line,
            fault: LineFault::Label(fault),
        }),
        None => Ok(next.word),
    }
}

/// The words of a list of labels: none where a dash is the only one.
fn listed_words<'a>(text: &'a [u8]) -> TextWords<'a>
    requires { length text.now ≤ 65536 }
    ensures answers { words_answers (left_words result) ≡ label_answers (all_words text.now) }
    ensures short { IsShort result }
{
    let words = TextWords::of(text);
    if is_only_dash(words) {
        words.end()
    } else {
        words
    }
}

impl<'a> LabelWords<'a> {
    /// The labels of a text of at most 65,536 bytes, each in a line of it. A dash that is its only
    /// word stands for none.
    #[tactic(auto, using(crate::proofs::LabelSlices::labels_in_lines))]
    pub fn of(text: &'a [u8]) -> LabelWords<'a>
        requires { length text.now ≤ 65536 }
        ensures answers { result ≡ label_answers (all_words text.now) }
        ensures own_lines { All (λ answer. IfOk answer (LiesInALine (lines_from 0 text.now))) result }
    {
        LabelWords {
            left: listed_words(text),
        }
    }

    /// The next label, or the first word that is none; None where there is none, and behind a bad
    /// one.
    pub fn next(&mut self) -> Option<Result<Part<'a>, BadLine>>
        ensures answer { MatchOption result ((self.old ≡ []) × (self.new ≡ []))
            (λ r. self.old ≡ seen_word r ∷ self.new) }
        ensures good { IfSome result IsGoodLabel }
    {
        let Some(next) = self.left.next() else {
            return None;
        };
        match read_label(next) {
            Ok(label) => {
                self.left = next.left;
                Some(Ok(label))
            }
            Err(bad) => {
                self.left = next.left.end();
                Some(Err(bad))
            }
        }
    }
}

/// The only word of a text of at most 65,536 bytes. Where it has none, the fault is in line 1, and
/// where it has more than one, in the line of the second.
#[tactic(auto, using(crate::proofs::LabelSlices::only_in_line))]
pub fn one_word(text: &[u8]) -> Result<Part<'_>, BadLine>
    requires { length text.now ≤ 65536 }
    ensures word { seen_word result ≡ only_word (all_words text.now) }
    ensures own_line { IfOk result (λ p. LiesInALine (lines_from 0 text.now) (placed p)) }
{
    let Some(first) = TextWords::of(text).next() else {
        return Err(BadLine {
            line: 1,
            fault: LineFault::Fields { n: 0 },
        });
    };
    match first.left.next() {
        None => Ok(first.word),
        Some(second) => Err(BadLine {
            line: second.line,
            fault: LineFault::Fields {
                n: 2 + second.left.count(),
            },
        }),
    }
}
