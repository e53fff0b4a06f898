ghost use Rattle.std.specs.Prelude.{◌≡◌, ◌<◌, ◌≤◌, ◌^◌, None, Some, length, map, All, MatchOption};
ghost use Rattle.rule_text.specs.Parts.{FitsPlaces, placed};
ghost use Rattle.verb_spec.specs.Kinds.{is_of_kind as is_word_of_kind, bad_word as bad_word_of, file_word as file_word_of, lines_word as lines_word_of};

use crate::words::{cap_of, is_file_name, is_task_name, number_of, signal_of, trace_way_of};
use rule_text::Part;
use smack_base::{Label, Modes, is_path};
use verb_spec::WordKind;

/// Whether a word is of a kind.
pub fn is_of_kind(kind: WordKind, word: &[u8]) -> bool
    requires { length word.now < 2 ^ 32 }
    ensures { result ≡ is_word_of_kind kind word.now }
{
    match kind {
        WordKind::Label => Label::fault(word).is_none(),
        WordKind::Modes => Modes::read(word).is_ok(),
        WordKind::File => is_file_name(word),
        WordKind::Lines | WordKind::Number => number_of(word).is_some(),
        WordKind::Path => is_path(word),
        WordKind::Capability => cap_of(word).is_some(),
        WordKind::NewTask | WordKind::KnownTask | WordKind::Child => is_task_name(word),
        WordKind::Signal => signal_of(word).is_some(),
        WordKind::TraceWay => trace_way_of(word).is_some(),
    }
}

/// The number of the first word that is not of its kind, where the first of all has the number 3.
pub fn bad_word(kinds: &[WordKind], words: &[Part<'_>]) -> Option<u32>
    requires few { length kinds.now ≤ 3 }
    requires fit { All FitsPlaces words.now }
    ensures { result ≡ bad_word_of 3 kinds.now (map placed words.now) }
{
    let mut k = 3;
    let mut kinds = kinds;
    let mut words = words;
    while let [kind, more @ ..] = kinds {
        let [word, behind @ ..] = words else {
            return None;
        };
        if !is_of_kind(*kind, word.bytes) {
            return Some(k);
        }
        k += 1;
        kinds = more;
        words = behind;
    }
    None
}

/// The word that stands for a file, where there is one.
pub fn file_word<'a>(kinds: &[WordKind], words: &[Part<'a>]) -> Option<Part<'a>>
    ensures { MatchOption result (file_word_of kinds.now (map placed words.now) ≡ None) (λ w. file_word_of kinds.now (map placed words.now) ≡ Some w.bytes.now) }
{
    let mut kinds = kinds;
    let mut words = words;
    while let [kind, more @ ..] = kinds {
        let [word, behind @ ..] = words else {
            return None;
        };
        if *kind == WordKind::File {
            return Some(*word);
        }
        kinds = more;
        words = behind;
    }
    None
}

/// The word that says how many lines are the text, where there is one.
pub fn lines_word<'a>(kinds: &[WordKind], words: &[Part<'a>]) -> Option<Part<'a>>
    ensures { MatchOption result (lines_word_of kinds.now (map placed words.now) ≡ None) (λ w. lines_word_of kinds.now (map placed words.now) ≡ Some w.bytes.now) }
{
    let mut kinds = kinds;
    let mut words = words;
    while let [kind, more @ ..] = kinds {
        let [word, behind @ ..] = words else {
            return None;
        };
        if *kind == WordKind::Lines {
            return Some(*word);
        }
        kinds = more;
        words = behind;
    }
    None
}
