ghost use Rattle.std.specs.Prelude.{◌≡◌, ◌++◌, map, OnOk, All};
ghost use Rattle.text_spec.specs.Texts.{is_space};
ghost use Rattle.rule_text.specs.Parts.{FitsPlaces, placed, part_words};
ghost use Rattle.script_spec.specs.Grammar.{text_count as text_count_of_words};

use call_words::{kinds_of, lines_word, number_of, verb_of};
use rule_text::{Part, Separator, split_word};
use std::alloc::AllocError;

/// Puts the words of a line, in order, in the place of those that are there.
pub fn put_words<'a>(words: &mut Vec<Part<'a>>, line: Part<'a>) -> Result<(), AllocError>
    requires { FitsPlaces line }
    ensures words { OnOk result (map placed words.new.items ≡ part_words is_space line.entry) }
    ensures fit { OnOk result (All FitsPlaces words.new.items) }
{
    words.clear();
    let mut rest = line;
    while let Some((word, after)) = split_word(rest, Separator::Space) {
        words.push(word)?;
        rest = after;
    }
    Ok(())
}

/// How many of the lines behind these words are their text.
pub fn text_count(words: &[Part<'_>]) -> u32
    ensures { result ≡ text_count_of_words (map placed words.now) }
{
    let [_, name, behind @ ..] = words else {
        return 0;
    };
    let Some(verb) = verb_of(name.bytes) else {
        return 0;
    };
    match lines_word(kinds_of(verb, behind), behind) {
        Some(word) => number_of(word.bytes).unwrap_or(0),
        None => 0,
    }
}
