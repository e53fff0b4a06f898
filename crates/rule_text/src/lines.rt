ghost use Rattle.std.specs.Prelude.{◌≡◌, ◌<◌, ◌≤◌, ◌+◌, ◌∷◌, [], length, take, drop, MatchOption, IfSome};
ghost use Rattle.std.specs.List.{position_or_len};
ghost use Rattle.text_spec.specs.Texts.{is_feed, whole_lines};
ghost use Rattle.rule_text.specs.Parts.{FitsPlaces, end_of, lines_of, first_text_line};

use crate::part::Part;
use memchr::memchr;

/// How many bytes stand before the first line feed.
#[tactic(auto, using(crate::proofs::FirstFeed::at_feed, crate::proofs::FirstFeed::no_feed))]
fn line_len(bytes: &[u8]) -> usize
    ensures { result ≡ position_or_len is_feed bytes.now }
{
    match memchr(b'\n', bytes) {
        Some(at) => at,
        None => bytes.len(),
    }
}

/// The first line of a text, without its line feed, and what follows it; None where there is no
/// line.
pub fn split_line<'a>(text: Part<'a>) -> Option<(Part<'a>, Part<'a>)>
    requires { FitsPlaces text }
    ensures lines { MatchOption result (lines_of text.entry ≡ [])
        (λ p. lines_of text.entry ≡ first_text_line text.entry p.0 ∷ lines_of p.1) }

    ensures begins { IfSome result (λ p. p.0.at ≡ text.entry.at) }
    ensures ends { IfSome result (λ p. end_of p.1 ≡ end_of text.entry) }
    ensures shorter { IfSome result
        (λ p. length p.0.bytes.now + length p.1.bytes.now ≤ length text.entry.bytes.now) }
    ensures falls { IfSome result (λ p. length p.1.bytes.now < length text.entry.bytes.now) }
{
    if text.bytes.is_empty() {
        return None;
    }
    let len = line_len(text.bytes);
    if len < text.bytes.len() {
        Some((text.front(len), text.after(len + 1)))
    } else {
        Some((text, text.after(text.bytes.len())))
    }
}

/// The first n lines of a text, with their line feeds, and what follows them; None where there are
/// fewer.
pub fn split_lines<'a>(n: u32, text: Part<'a>) -> Option<(Part<'a>, Part<'a>)>
    requires { FitsPlaces text }
    ensures count { MatchOption result (length (lines_of text.entry) < n)
        (λ _. n ≤ length (lines_of text.entry)) }

    // The lines are their bytes, and these alone have the same lines at the same places.
    ensures bytes { IfSome result
        (λ p. p.0.bytes.now ≡ whole_lines (take n (lines_of text.entry))) }
    ensures front { IfSome result (λ p. lines_of p.0 ≡ take n (lines_of text.entry)) }
    ensures rest { IfSome result (λ p. lines_of p.1 ≡ drop n (lines_of text.entry)) }
    ensures fewer { IfSome result (λ p. n + length p.1.bytes.now ≤ length text.entry.bytes.now) }

    ensures begins { IfSome result (λ p. p.0.at ≡ text.entry.at) }
    ensures meets { IfSome result (λ p. p.1.at ≡ end_of p.0) }
    ensures ends { IfSome result (λ p. end_of p.1 ≡ end_of text.entry) }
{
    let mut rest = text;
    for _ in 0..n {
        let Some((_, after)) = split_line(rest) else {
            return None;
        };
        rest = after;
    }
    Some((text.front(text.bytes.len() - rest.bytes.len()), rest))
}
