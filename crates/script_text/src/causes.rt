ghost use Rattle.std.specs.Prelude.{◌≡◌, ◌≤◌, None, Some, length, map, All, MatchResult};
ghost use Rattle.rule_text.specs.Parts.{FitsPlaces, placed};
ghost use Rattle.verb_spec.specs.Kinds.{has_word as has_word_of};
ghost use Rattle.script_spec.specs.Causes.{is_file_unbuilt as is_word_file_unbuilt, is_path_unbuilt as is_word_path_unbuilt, is_name_bad as is_word_name_bad, is_wait_bad as is_word_wait_bad, unless_verb as unless_verb_of, words_cause as words_cause_of, line_cause};
ghost use Rattle.script_text.specs.TaskTables.{tasks_seen};
ghost use Rattle.script_text.specs.Causes.{test_seen};
ghost use Rattle.script_text.specs.Spelled.{HasVerb};

use crate::tasks::TaskTable;
use call_words::{bad_word, is_deep, is_one_of, is_task_name, is_unbuilt_verb, kinds_of, verb_of};
use rule_text::Part;
use script_spec::Cause;
use verb_spec::{Verb, WordKind};

/// The files that scripts do not have yet.
const UNBUILT_FILES: &[&[u8]] = &[b"unconfined"];

/// What may be wrong with a word of its kind.
#[derive(Clone, Copy)]
enum WordTest<'t, 'a> {
    /// It names a file that is not built.
    FileUnbuilt,
    /// It is a path of more than one name, which is not built.
    PathUnbuilt,
    /// It names a task that it may not name: one that is there already, or one that is not.
    NameBad(&'t TaskTable<'a>),
    /// It names a task that the task of this pid may not wait for.
    WaitBad(&'t TaskTable<'a>, usize),
}

fn is_file_unbuilt(kind: WordKind, word: &[u8]) -> bool
    ensures { result ≡ is_word_file_unbuilt kind word.now }
{
    match kind {
        WordKind::File => is_one_of(UNBUILT_FILES, word),
        _ => false,
    }
}

fn is_path_unbuilt(kind: WordKind, word: &[u8]) -> bool
    ensures { result ≡ is_word_path_unbuilt kind word.now }
{
    match kind {
        WordKind::Path => is_deep(word),
        _ => false,
    }
}

fn is_name_bad(tasks: &TaskTable<'_>, kind: WordKind, word: &[u8]) -> bool
    ensures { result ≡ is_word_name_bad (tasks_seen tasks.now) kind word.now }
{
    match kind {
        WordKind::NewTask => tasks.is_there(word),
        WordKind::KnownTask => !tasks.is_there(word),
        _ => false,
    }
}

fn is_wait_bad(tasks: &TaskTable<'_>, task: usize, kind: WordKind, word: &[u8]) -> bool
    ensures { result ≡ is_word_wait_bad (tasks_seen tasks.now) task kind word.now }
{
    match kind {
        WordKind::Child => !tasks.is_latest_child(task, word),
        _ => false,
    }
}

fn passes(test: &WordTest<'_, '_>, kind: WordKind, word: &[u8]) -> bool
    ensures { result ≡ test_seen test.now kind word.now }
{
    match test {
        WordTest::FileUnbuilt => is_file_unbuilt(kind, word),
        WordTest::PathUnbuilt => is_path_unbuilt(kind, word),
        WordTest::NameBad(tasks) => is_name_bad(tasks, kind, word),
        WordTest::WaitBad(tasks, task) => is_wait_bad(tasks, *task, kind, word),
    }
}

/// Whether one of some words passes a test by its kind.
fn has_word(test: &WordTest<'_, '_>, kinds: &[WordKind], words: &[Part<'_>]) -> bool
    ensures { result ≡ has_word_of (test_seen test.now) kinds.now (map placed words.now) }
{
    let mut kinds = kinds;
    let mut words = words;
    while let [kind, more @ ..] = kinds {
        let [word, behind @ ..] = words else {
            return false;
        };
        if passes(test, *kind, word.bytes) {
            return true;
        }
        kinds = more;
        words = behind;
    }
    false
}

/// What is wrong with words that should be of these kinds, with the text, or with the tasks of the
/// line.
fn words_cause(
    tasks: &TaskTable<'_>,
    task: &[u8],
    kinds: &[WordKind],
    words: &[Part<'_>],
    text: bool,
) -> Option<Cause>
    requires few { length kinds.now ≤ 3 }
    requires fit { All FitsPlaces words.now }
    ensures cause { result ≡ words_cause_of (tasks_seen tasks.now) task.now kinds.now (map placed words.now) text }
    ensures few { result ≡ None → length words.now ≤ 3 }
{
    if has_word(&WordTest::FileUnbuilt, kinds, words) {
        return Some(Cause::NotBuilt);
    }
    if words.len() != kinds.len() {
        return Some(Cause::Words);
    }
    if let Some(k) = bad_word(kinds, words) {
        return Some(Cause::Word { k });
    }
    if has_word(&WordTest::PathUnbuilt, kinds, words) {
        return Some(Cause::NotBuilt);
    }
    if !text {
        return Some(Cause::Text);
    }
    if !tasks.is_live(task) {
        return Some(Cause::Task);
    }
    if has_word(&WordTest::NameBad(tasks), kinds, words) {
        return Some(Cause::Name);
    }
    if has_word(&WordTest::WaitBad(tasks, tasks.pid_of(task)), kinds, words) {
        return Some(Cause::Wait);
    }
    None
}

fn unless_verb(name: &[u8]) -> Cause
    ensures { Some result ≡ unless_verb_of name.now }
{
    if is_unbuilt_verb(name) {
        Cause::NotBuilt
    } else {
        Cause::Verb
    }
}

/// The verb of a line of these words, whose text is all there or not; or what is wrong with it.
pub fn line_verb(tasks: &TaskTable<'_>, words: &[Part<'_>], text: bool) -> Result<Verb, Cause>
    requires { All FitsPlaces words.now }
    ensures { MatchResult result (λ verb. HasVerb (tasks_seen tasks.now) (map placed words.now) text verb) (λ cause. line_cause (tasks_seen tasks.now) (map placed words.now) text ≡ Some cause) }
{
    let [task, rest @ ..] = words else {
        return Err(Cause::Word { k: 1 });
    };
    if !is_task_name(task.bytes) {
        return Err(Cause::Word { k: 1 });
    }
    let [name, behind @ ..] = rest else {
        return Err(Cause::Verb);
    };
    let Some(verb) = verb_of(name.bytes) else {
        return Err(unless_verb(name.bytes));
    };
    match words_cause(tasks, task.bytes, kinds_of(verb, behind), behind, text) {
        Some(cause) => Err(cause),
        None => Ok(verb),
    }
}
