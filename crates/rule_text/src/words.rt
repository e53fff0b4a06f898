ghost use Rattle.std.specs.Prelude.{◌≡◌, ◌<◌, ◌≤◌, ◌+◌, ◌∷◌, [], None, true, false, not, length, take, position, MatchOption, IfSome};
ghost use Rattle.std.specs.List.{position_or_len};
ghost use Rattle.smack_base.specs.Labels.{is_label_byte, label_fault, begins_with_dash as is_dash_in_front};
ghost use Rattle.text_spec.specs.Texts.{is_blank, begins_word};
ghost use Rattle.rule_text.specs.Parts.{FitsPlaces, end_of, placed, part_words};
ghost use Rattle.rule_text.specs.JudgedWords.{IsWordJudged};
ghost use Rattle.rule_text.specs.Separators.{separates};

use crate::part::Part;
use smack_base::Label;

/// What parts the words of a line.
#[derive(Clone, Copy, PartialEq, Eq)]
pub enum Separator {
    /// A space.
    Space,
    /// A space or a tab.
    Blank,
}

fn is_separator(separator: Separator, b: u8) -> bool
    ensures { result ≡ separates separator b }
{
    match separator {
        Separator::Space => b == b' ',
        Separator::Blank => b == b' ' || b == b'\t',
    }
}

fn first_bare(separator: Separator, bytes: &[u8]) -> Option<usize>
    ensures { result ≡ position (λ b. not (separates separator b)) bytes.now }
{
    bytes.iter().position(|b| !is_separator(separator, *b))
}

fn first_separator(separator: Separator, bytes: &[u8]) -> Option<usize>
    ensures { result ≡ position (separates separator) bytes.now }
{
    bytes.iter().position(|b| is_separator(separator, *b))
}

/// How many separators stand in front.
#[tactic(auto, using(crate::proofs::Places::no_place, crate::proofs::Places::place_within))]
pub(crate) fn blank_len(separator: Separator, bytes: &[u8]) -> usize
    ensures place { result ≡ position_or_len (λ b. not (separates separator b)) bytes.now }
    ensures within { result ≤ length bytes.now }
{
    match first_bare(separator, bytes) {
        Some(at) => at,
        None => bytes.len(),
    }
}

/// How many bytes stand before the first separator.
#[tactic(auto, using(crate::proofs::Places::no_place, crate::proofs::Places::place_within))]
fn word_len(separator: Separator, bytes: &[u8]) -> usize
    ensures place { result ≡ position_or_len (separates separator) bytes.now }
    ensures within { result ≤ length bytes.now }
{
    match first_separator(separator, bytes) {
        Some(at) => at,
        None => bytes.len(),
    }
}

/// The first word of a line, and what follows it; None where there is no word.
pub fn split_word<'a>(line: Part<'a>, separator: Separator) -> Option<(Part<'a>, Part<'a>)>
    requires { FitsPlaces line }
    ensures words { let blank = separates separator in
        MatchOption result (part_words blank line.entry ≡ [])
        (λ p. part_words blank line.entry ≡ placed p.0 ∷ part_words blank p.1) }
    ensures long { IfSome result (λ p. 0 < length p.0.bytes.now) }

    ensures begins { IfSome result (λ p. line.entry.at ≤ p.0.at) }
    ensures meets { IfSome result (λ p. p.1.at ≡ end_of p.0) }
    ensures ends { IfSome result (λ p. end_of p.1 ≡ end_of line.entry) }
    ensures shorter { IfSome result
        (λ p. length p.0.bytes.now + length p.1.bytes.now ≤ length line.entry.bytes.now) }
    ensures falls { IfSome result (λ p. length p.1.bytes.now < length line.entry.bytes.now) }
{
    let bare = line.after(blank_len(separator, line.bytes));
    if bare.bytes.is_empty() {
        return None;
    }
    let len = word_len(separator, bare.bytes);
    Some((bare.front(len), bare.after(len)))
}

/// How many words stand in a line, parted by spaces or tabs.
pub(crate) fn word_count(line: Part) -> u32
    requires { FitsPlaces line }
    ensures count { result ≡ length (part_words is_blank line.entry) }
    ensures fewer { result ≤ length line.entry.bytes.now }
{
    let mut rest = line;
    let mut count = 0;
    while let Some((_, after)) = split_word(rest, Separator::Blank) {
        count += 1;
        rest = after;
    }
    count
}

/// A word, and whether it is known to be a label.
#[derive(Clone, Copy)]
pub(crate) struct JudgedWord<'a> {
    pub(crate) word: Part<'a>,
    pub(crate) is_label: bool,
}

/// How many bytes stand in front that labels may have.
#[tactic(auto, using(crate::proofs::Places::no_place, crate::proofs::Places::place_within))]
fn label_len(bytes: &[u8]) -> usize
    ensures place { result ≡ position_or_len (λ b. not (is_label_byte b)) bytes.now }
    ensures within { result ≤ length bytes.now }
{
    match Label::first_bad(bytes) {
        Some(at) => at,
        None => bytes.len(),
    }
}

/// Whether a text begins with a byte of a word.
fn begins_bare(bytes: &[u8]) -> bool
    ensures { result ≡ begins_word is_blank bytes.now }
{
    match bytes {
        [] => false,
        [b, ..] => !is_separator(Separator::Blank, *b),
    }
}

fn begins_with_dash(bytes: &[u8]) -> bool
    ensures { result ≡ is_dash_in_front bytes.now }
{
    match bytes {
        [] => false,
        [b, ..] => *b == b'-',
    }
}

/// Whether so many bytes are neither none nor too many for a label, and begin with no dash.
fn is_of_label_size(bytes: &[u8], len: usize) -> bool
    ensures { result ≡ true → (0 < len) × (len ≤ 255) × (is_dash_in_front bytes.now ≡ false) }
{
    len > 0 && len <= 255 && !begins_with_dash(bytes)
}

/// How many bytes of a text that begins with a word stand before the first separator, and whether
/// they are known to be a label.
#[tactic(auto, using(crate::proofs::JudgedWords::run_is_word, crate::proofs::JudgedWords::run_is_label))]
fn judged_len(bytes: &[u8]) -> (usize, bool)
    ensures place { result.0 ≡ position_or_len is_blank bytes.now }
    ensures within { result.0 ≤ length bytes.now }
    ensures label { result.1 ≡ true → label_fault (take result.0 bytes.now) ≡ None }
{
    let len = label_len(bytes);
    if begins_bare(&bytes[len..]) {
        return (word_len(Separator::Blank, bytes), false);
    }
    (len, is_of_label_size(bytes, len))
}

/// The first word of a line, parted by spaces or tabs and judged as a label, and what follows it;
/// None where there is no word.
pub(crate) fn split_label<'a>(line: Part<'a>) -> Option<(JudgedWord<'a>, Part<'a>)>
    requires { FitsPlaces line }
    ensures words { MatchOption result (part_words is_blank line.entry ≡ [])
        (λ p. part_words is_blank line.entry ≡ placed p.0.word ∷ part_words is_blank p.1) }
    ensures label { IfSome result (λ p. IsWordJudged p.0) }
    ensures ends { IfSome result (λ p. end_of p.1 ≡ end_of line.entry) }
    ensures falls { IfSome result (λ p. length p.1.bytes.now < length line.entry.bytes.now) }
{
    let bare = line.after(blank_len(Separator::Blank, line.bytes));
    if bare.bytes.is_empty() {
        return None;
    }
    let (len, is_label) = judged_len(bare.bytes);
    let word = JudgedWord {
        word: bare.front(len),
        is_label,
    };
    Some((word, bare.after(len)))
}
