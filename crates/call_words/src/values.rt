ghost use Rattle.std.specs.Prelude.{◌≡◌, ◌<◌, ◌≤◌, ◌^◌, length, map, position, IfOk, IfSome};
ghost use Rattle.std.specs.Option.{option_map};
ghost use Rattle.std.specs.Str.{bytes_eq};
ghost use Rattle.rule_text.specs.Parts.{placed};
ghost use Rattle.verb_spec.specs.Values.{modes_in as modes_of_word, path_in as path_of_word, pid_in as pid_of_word, value_in as value_of_word, values_behind as values_of_words};

use crate::words::{cap_of, number_of, signal_of, trace_way_of};
use label_table::Labels;
use rule_text::Part;
use smack_base::{Bytes, Modes, Path, PathFault, Pid};
use std::alloc::{AllocError, Global};
use verb_spec::{Value, WordKind};

/// The most bytes of a path.
const LONGEST_PATH: usize = 2080;

/// The path that a word is; None where it is none.
#[tactic(auto, using(crate::proofs::LongPaths::no_long_path))]
pub fn path_in(alloc: Global, word: &[u8]) -> Result<Option<Path>, AllocError>
    ensures { IfOk result (λ path. path ≡ path_of_word word.now) }
{
    if word.len() > LONGEST_PATH {
        return Ok(None);
    }
    match Path::read(alloc, word) {
        Ok(path) => Ok(Some(path)),
        Err(PathFault::Memory) => Err(AllocError),
        Err(_) => Ok(None),
    }
}

fn place_in(names: &[Bytes], word: &[u8]) -> Option<usize>
    ensures place { result ≡ position (λ name. bytes_eq name word.now) names.now }
    ensures within { IfSome result (λ at. at < length names.now) }
{
    names.iter().position(|name| name.items() == word)
}

/// The pid of the task that a word names; None where no task has the name.
#[tactic(auto, using(crate::proofs::Pids::pid_at, crate::proofs::Pids::no_pid))]
pub fn pid_in(names: &[Bytes], word: &[u8]) -> Option<Pid>
    requires { length names.now ≤ 2 ^ 16 }
    ensures { result ≡ pid_of_word names.now word.now }
{
    match place_in(names, word) {
        Some(pid) => Some(Pid(pid as u16)),
        None => None,
    }
}

/// The modes that a word is, where it has no bad letter.
pub fn modes_in(word: &[u8]) -> Option<Modes>
    ensures { result ≡ modes_of_word word.now }
{
    if Modes::are_letters(word) {
        Some(Modes::of(word))
    } else {
        None
    }
}

/// What a word of a kind is read as, by the labels and the names of the tasks; None where it is not
/// of the kind, or not known.
pub fn value_in(
    alloc: Global,
    labels: &Labels,
    names: &[Bytes],
    kind: WordKind,
    word: &[u8],
) -> Result<Option<Value>, AllocError>
    requires { length names.now ≤ 2 ^ 16 }
    ensures { IfOk result (λ value. value ≡ value_of_word labels.now names.now kind word.now) }
{
    match kind {
        WordKind::Label => Ok(labels.id(word).map(Value::Label)),
        WordKind::Modes => Ok(modes_in(word).map(Value::Modes)),
        WordKind::File | WordKind::Lines => Ok(None),
        WordKind::Number => Ok(number_of(word).map(Value::Number)),
        WordKind::Path => Ok(path_in(alloc, word)?.map(Value::Path)),
        WordKind::Capability => Ok(cap_of(word).map(Value::Capability)),
        WordKind::NewTask | WordKind::KnownTask | WordKind::Child => {
            Ok(pid_in(names, word).map(Value::Task))
        }
        WordKind::Signal => Ok(signal_of(word).map(Value::Signal)),
        WordKind::TraceWay => Ok(trace_way_of(word).map(Value::TraceWay)),
    }
}

/// What words of these kinds are read as; None where one is missing, not of its kind or not known.
pub fn values_behind(
    alloc: Global,
    labels: &Labels,
    names: &[Bytes],
    kinds: &[WordKind],
    words: &[Part<'_>],
) -> Result<Option<Vec<Value>>, AllocError>
    requires { length names.now ≤ 2 ^ 16 }
    ensures { IfOk result (λ values. option_map (λ v. v.items) values ≡ values_of_words labels.now names.now kinds.now (map placed words.now)) }
{
    let mut values = Vec::new(alloc);
    let mut kinds = kinds;
    let mut words = words;
    while let [kind, more @ ..] = kinds {
        let [word, behind @ ..] = words else {
            return Ok(None);
        };
        let Some(value) = value_in(alloc, labels, names, *kind, word.bytes)? else {
            return Ok(None);
        };
        values.push(value)?;
        kinds = more;
        words = behind;
    }
    Ok(Some(values))
}
