ghost use Rattle.std.specs.Prelude.{◌≡◌, ◌≤◌, ◌<◌, length, map};
ghost use Rattle.rule_text.specs.Parts.{placed};
ghost use Rattle.script_spec.specs.Lines.{kinds_in, words_behind};
ghost use Rattle.script_text.specs.Lines.{call_seen};
ghost use Rattle.script_text.specs.Spelled.{spelled_seen, IsSpelledCall};

use crate::line::Line;
use call_words::{kinds_of, word};
use rule_text::Part;
use verb_spec::{Verb, WordKind};

/// A call whose words are still a list: those behind its task, the verb first.
#[derive(Clone, Copy)]
pub struct Spelled<'w, 'a> {
    pub verb: Verb,
    pub task: u16,
    pub seq: u32,
    pub line: u32,
    pub words: &'w [Part<'a>],
    pub text: Part<'a>,
}

impl<'w, 'a> Spelled<'w, 'a> {
    /// The words behind the verb.
    pub fn behind(&self) -> &'w [Part<'a>]
        ensures { map placed result.now ≡ words_behind (spelled_seen self.now) }
    {
        match self.words {
            [_, behind @ ..] => behind,
            [] => &[],
        }
    }

    /// The kinds of the words behind the verb.
    pub fn kinds(&self) -> &'static [WordKind]
        requires { IsSpelledCall self.now }
        ensures { result.now ≡ kinds_in (spelled_seen self.now) }
    {
        kinds_of(self.verb, self.behind())
    }

    /// The call with its words apart.
    pub fn line(&self) -> Line<'a>
        requires some { 0 < length self.now.words.now }
        requires few { length self.now.words.now ≤ 4 }
        ensures { call_seen result ≡ spelled_seen self.now }
    {
        Line {
            task: self.task,
            seq: self.seq,
            line: self.line,
            verb: word(self.words, 0),
            words: [
                word(self.words, 1),
                word(self.words, 2),
                word(self.words, 3),
            ],
            count: (self.words.len() - 1) as u8,
            text: self.text,
        }
    }
}
