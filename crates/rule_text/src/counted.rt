ghost use Rattle.std.specs.Prelude.{◌≡◌, ◌≤◌, ◌+◌, ◌==◌, ◌∷◌, [], false, length, MatchOption, IfSome};
ghost use Rattle.text_spec.specs.Texts.{is_blank};
ghost use Rattle.rule_text.specs.Parts.{end_of, lines_of, placed, part_words};
ghost use Rattle.rule_text.specs.Counted.{is_skipped_as as is_skipped_line, numbered, numbered_line};

use crate::lines::split_line;
use crate::part::Part;
use crate::words::{Separator, blank_len};
use text_spec::BadLine;

/// Which lines of a text are skipped.
#[derive(Clone, Copy, PartialEq, Eq)]
pub(crate) enum Skipped {
    /// Those without a word.
    Bare,
    /// Those without a byte.
    Empty,
}

/// A line that is not skipped, its number, and what follows it.
#[derive(Clone, Copy)]
pub(crate) struct CountedLine<'a> {
    pub(crate) number: u32,
    pub(crate) line: Part<'a>,
    pub(crate) rest: Part<'a>,
}

/// What a line that is not skipped is, the number of the next, and what follows it.
#[derive(Clone, Copy)]
pub(crate) struct Found<'a, T> {
    pub(crate) answer: Result<T, BadLine>,
    pub(crate) line: u32,
    pub(crate) rest: Part<'a>,
}

/// Whether a line has no word.
#[tactic(auto, using(crate::proofs::CountedLines::bare_place))]
fn is_bare(line: Part<'_>) -> bool
    ensures { result ≡ (length (part_words is_blank line.entry) == 0) }
{
    blank_len(Separator::Blank, line.bytes) == line.bytes.len()
}

fn is_skipped(skipped: Skipped, line: Part<'_>) -> bool
    ensures { result ≡ is_skipped_line skipped (placed line.entry) }
{
    match skipped {
        Skipped::Bare => is_bare(line),
        Skipped::Empty => line.bytes.is_empty(),
    }
}

/// The first line that is not skipped, where the first of all has this number.
pub(crate) fn first_counted<'a>(
    skipped: Skipped,
    number: u32,
    text: Part<'a>,
) -> Option<CountedLine<'a>>
    requires count { number + length text.bytes.now ≤ 65537 }
    requires fits { end_of text ≤ 65536 }
    ensures lines { let all = numbered skipped number (lines_of text.entry) in
        MatchOption result (all ≡ [])
        (λ c. all ≡ numbered_line c ∷ numbered skipped (c.number + 1) (lines_of c.rest)) }
    ensures is { IfSome result (λ c. is_skipped_line skipped (placed c.line) ≡ false) }
    ensures count { IfSome result (λ c. c.number + 1 + length c.rest.bytes.now ≤ 65537) }
    ensures line_fits { IfSome result (λ c. end_of c.line ≤ 65536) }
    ensures fits { IfSome result (λ c. end_of c.rest ≤ 65536) }
{
    let mut count = number;
    let mut rest = text;
    while let Some((line, after)) = split_line(rest) {
        if !is_skipped(skipped, line) {
            return Some(CountedLine {
                number: count,
                line,
                rest: after,
            });
        }
        count += 1;
        rest = after;
    }
    None
}
