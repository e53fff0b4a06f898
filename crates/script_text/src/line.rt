use call_words::word;
use rule_text::Part;

/// A call of a script: a line that is neither skipped nor the text of another.
#[derive(Clone, Copy)]
pub struct Line<'a> {
    /// The pid of the task; 0 is the first task.
    pub task: u16,
    /// The number of the call among the calls of its task, from 1.
    pub seq: u32,
    /// The number of the line, from 1.
    pub line: u32,
    /// The verb, the second word of the line.
    pub verb: Part<'a>,
    /// The words behind the verb, of which the first `count` are there.
    pub words: [Part<'a>; 3],
    pub count: u8,
    /// The text of a write, with its line feeds; empty for every other call.
    pub text: Part<'a>,
}

impl<'a> Line<'a> {
    ghost use Rattle.std.specs.Prelude.{◌≡◌, map};
    ghost use Rattle.rule_text.specs.Parts.{placed};
    ghost use Rattle.script_spec.specs.Lines.{word_in, words_behind};
    ghost use Rattle.script_text.specs.Lines.{call_seen};

    /// The words behind the verb.
    pub fn behind(&self) -> &[Part<'a>]
        ensures { map placed result.now ≡ words_behind (call_seen self.now) }
    {
        let count = usize::from(self.count);
        if count < 3 {
            &self.words[..count]
        } else {
            &self.words
        }
    }

    /// The bytes of the k-th word behind the verb, from 1; none where it is absent. The verb itself
    /// is the 0-th.
    pub fn word(&self, k: usize) -> &'a [u8]
        ensures { result.now ≡ word_in k (call_seen self.now) }
    {
        if k == 0 {
            return self.verb.bytes;
        }
        word(self.behind(), k - 1).bytes
    }
}
