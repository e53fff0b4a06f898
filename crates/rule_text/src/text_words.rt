ghost use Rattle.std.specs.Prelude.{◌≡◌, ◌≤◌, ◌<◌, ◌+◌, ◌∷◌, [], length, MatchOption, IfSome};
ghost use Rattle.text_spec.specs.RuleTexts.{all_words};
ghost use Rattle.rule_text.specs.LeftWords.{left_words, left_bytes, line_word, IsShort};

use crate::lines::split_line;
use crate::part::Part;
use crate::words::{Separator, split_word};

/// The words that are left of a text: those of the rest of a line, and of the lines behind it.
#[derive(Clone, Copy)]
pub(crate) struct TextWords<'a> {
    line: u32,
    rest: Part<'a>,
    after: Part<'a>,
}

/// A word of a text, the number of its line, and the words behind it.
#[derive(Clone, Copy)]
pub(crate) struct NextWord<'a> {
    pub(crate) line: u32,
    pub(crate) word: Part<'a>,
    pub(crate) left: TextWords<'a>,
}

impl<'a> TextWords<'a> {
    /// All words of a text.
    pub(crate) fn of(text: &'a [u8]) -> TextWords<'a>
        requires { length text.now ≤ 65536 }
        ensures words { left_words result ≡ all_words text.now }
        ensures short { IsShort result }
    {
        TextWords {
            line: 0,
            rest: Part {
                bytes: &text[..0],
                at: 0,
            },
            after: Part { bytes: text, at: 0 },
        }
    }

    /// No words, at the end of the text.
    pub(crate) fn end(self) -> TextWords<'a>
        requires { IsShort self }
        ensures words { left_words result ≡ [] }
        ensures short { IsShort result }
    {
        TextWords {
            line: self.line,
            rest: self.after.end(),
            after: self.after.end(),
        }
    }

    /// The first word that is left.
    pub(crate) fn next(self) -> Option<NextWord<'a>>
        requires { IsShort self }
        ensures words { MatchOption result (left_words self.entry ≡ [])
            (λ n. left_words self.entry ≡ line_word n ∷ left_words n.left) }
        ensures short { IfSome result (λ n. IsShort n.left) }
        ensures falls { IfSome result (λ n. left_bytes n.left < left_bytes self.entry) }
    {
        let mut left = self;
        loop {
            if let Some((word, rest)) = split_word(left.rest, Separator::Blank) {
                return Some(NextWord {
                    line: left.line,
                    word,
                    left: TextWords { rest, ..left },
                });
            }
            let Some((rest, after)) = split_line(left.after) else {
                return None;
            };
            left = TextWords {
                line: left.line + 1,
                rest,
                after,
            };
        }
    }

    /// How many words are left.
    pub(crate) fn count(self) -> u32
        requires { IsShort self }
        ensures count { result ≡ length (left_words self.entry) }
        ensures fewer { result ≤ left_bytes self.entry }
    {
        let mut left = self;
        let mut count = 0;
        while let Some(next) = left.next() {
            left = next.left;
            count += 1;
        }
        count
    }
}
