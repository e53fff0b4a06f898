ghost use Rattle.std.specs.Prelude.{◌≡◌, ◌≤◌, ◌^◌, ◌+◌, ◌*◌, map, MatchOption};
ghost use Rattle.std.specs.List.{list_all};
ghost use Rattle.smack_base.specs.Paths.{is_slash as is_slash_byte, is_name_byte};
ghost use Rattle.rule_text.specs.Parts.{placed};
ghost use Rattle.verb_spec.specs.Words.{cap_of as cap_of_name, is_deep as is_deep_word, is_file_name as is_word_file_name, is_one_of as is_one_of_names, number_of as number_of_word, signal_of as signal_of_word, trace_way_of as trace_way_of_name, is_decimal as is_decimal_word, value_from, is_digit as is_digit_byte, is_task_byte as is_byte_of_task, is_task_name as is_name_of_task, word_at};

use rule_text::Part;
use smack_base::Cap;
use world_spec::TraceWay;

/// Whether a word is one of some names.
pub fn is_one_of(names: &[&[u8]], name: &[u8]) -> bool
    ensures { result ≡ is_one_of_names (map (λ n. n.now) names.now) name.now }
{
    let mut names = names;
    while let [known, more @ ..] = names {
        if name == *known {
            return true;
        }
        names = more;
    }
    false
}

/// The capability with this name; None where there is none.
pub fn cap_of(name: &[u8]) -> Option<Cap>
    ensures { result ≡ cap_of_name name.now }
{
    if name == b"mac-admin".as_slice() {
        Some(Cap::MacAdmin)
    } else if name == b"mac-override".as_slice() {
        Some(Cap::MacOverride)
    } else if name == b"sys-ptrace".as_slice() {
        Some(Cap::SysPtrace)
    } else {
        None
    }
}

fn is_slash(b: u8) -> bool
    ensures { result ≡ is_slash_byte b }
{
    b == b'/'
}

/// Whether a slash stands behind the first byte.
pub fn is_deep(word: &[u8]) -> bool
    ensures { result ≡ is_deep_word word.now }
{
    word.iter().skip(1).any(|b| is_slash(*b))
}

fn are_digits(word: &[u8]) -> bool
    ensures { result ≡ list_all is_digit_byte word.now }
{
    word.iter().all(|b| b.is_ascii_digit())
}

/// Whether a word is a decimal number, of any size, without a zero in front.
fn is_decimal(word: &[u8]) -> bool
    ensures { result ≡ is_decimal_word word.now }
{
    match word {
        [] => false,
        [b'0', _, ..] => false,
        _ => are_digits(word),
    }
}

/// A number with one more digit, where it is below 2^32.
fn with_digit(n: u32, digit: u8) -> Option<u32>
    ensures { MatchOption result (2 ^ 32 ≤ n * 10 + digit) (λ more. more ≡ n * 10 + digit) }
{
    let more = u64::from(n) * 10 + u64::from(digit);
    if more <= u64::from(u32::MAX) {
        Some(more as u32)
    } else {
        None
    }
}

/// The value of a decimal number, where it is below 2^32.
fn value_of(word: &[u8]) -> Option<u32>
    ensures { MatchOption result (2 ^ 32 ≤ value_from 0 word.now) (λ n. n ≡ value_from 0 word.now) }
{
    let mut n = 0u32;
    for b in word {
        let Some(more) = with_digit(n, b.saturating_sub(b'0')) else {
            return None;
        };
        n = more;
    }
    Some(n)
}

/// The decimal number below 2^32 that a word is; None where it is none.
pub fn number_of(word: &[u8]) -> Option<u32>
    ensures { result ≡ number_of_word word.now }
{
    if is_decimal(word) {
        value_of(word)
    } else {
        None
    }
}

fn are_printed(word: &[u8]) -> bool
    ensures { result ≡ list_all is_name_byte word.now }
{
    word.iter().all(|b| b.is_ascii_graphic())
}

/// Whether a word is a name of a file.
pub fn is_file_name(word: &[u8]) -> bool
    ensures { result ≡ is_word_file_name word.now }
{
    !word.is_empty() && word.len() <= 32 && are_printed(word)
}

/// The way of tracing with this name; None where there is none.
pub fn trace_way_of(name: &[u8]) -> Option<TraceWay>
    ensures { result ≡ trace_way_of_name name.now }
{
    if name == b"read".as_slice() {
        Some(TraceWay::Read)
    } else if name == b"attach".as_slice() {
        Some(TraceWay::Attach)
    } else {
        None
    }
}

/// The number of a signal, from 1 to 31, that a word is; None where it is none.
pub fn signal_of(word: &[u8]) -> Option<u8>
    ensures { result ≡ signal_of_word word.now }
{
    match number_of(word) {
        Some(n) => {
            if n >= 1 && n <= 31 {
                Some(n as u8)
            } else {
                None
            }
        }
        None => None,
    }
}

fn is_task_byte(b: u8) -> bool
    ensures { result ≡ is_byte_of_task b }
{
    b.is_ascii_digit() || (b >= b'A' && b <= b'Z') || (b >= b'a' && b <= b'z') || b == b'_'
}

fn are_task_bytes(word: &[u8]) -> bool
    ensures { result ≡ list_all is_byte_of_task word.now }
{
    word.iter().all(|b| is_task_byte(*b))
}

/// Whether a word is a name of a task.
pub fn is_task_name(word: &[u8]) -> bool
    ensures { result ≡ is_name_of_task word.now }
{
    !word.is_empty() && word.len() <= 16 && are_task_bytes(word)
}

/// The word behind so many others; an empty one where there is none.
pub fn word<'a>(words: &[Part<'a>], k: usize) -> Part<'a>
    ensures { placed result ≡ word_at k (map placed words.now) }
{
    match words.get(k) {
        Some(word) => *word,
        None => Part { bytes: b"", at: 0 },
    }
}
