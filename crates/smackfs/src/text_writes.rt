ghost use Rattle.std.specs.Prelude.{◌≡◌, ◌≤◌, ◌∷◌, [], length, map, take, count_by, MatchOption, IfSome, IfOk, IfErr, All, Ok, Err, is_ok, true};
ghost use Rattle.std.specs.Option.{option_map};
ghost use Rattle.text_spec.specs.Texts.{is_feed};
ghost use Rattle.rule_text.specs.Parts.{placed};
ghost use Rattle.rule_text.specs.RuleAnswers.{fields_of};
ghost use Rattle.rule_text.specs.LabelAnswers.{seen_word, IsGoodLabel};
ghost use Rattle.file_spec.specs.Writes.{NamedRevoke, NamedAdd, NamedAmbient, NamedPtrace, NamedLogging, on_good, set_write, change_write, modes_or_none as modes_of_field, label_in as label_of_text, digit_in as digit_of_word, number_in as number_of_text, line_of, write_answers, writes_of_text};
ghost use Rattle.smackfs.specs.Named.{named_write, seen_op, HasGoodNames, IsGoodOp, IsNextAnswer};
ghost use Rattle.smackfs.specs.Gives.{IsBadText};
ghost use Rattle.smackfs.specs.Left.{left, list_left, IsGoodReader};

use crate::named_op::{NamedOp, NamedOps};
use file_spec::RuleFile;
use rule_text::{
    BadLine, LabelWords, LineFault, Part, RuleForm, RuleLine, RuleLines, SubjectLines, one_word,
};
use smack_base::{Label, Modes};
use std::alloc::Global;
use std::marker::Model;

/// The writes of the list of `onlycap`: first it is cleared, if it was not, and then come the labels.
#[derive(Drop)]
struct ListWrites<'a> {
    cleared: bool,
    labels: LabelWords<'a>,
}

/// The readers of the files.
#[derive(Drop)]
enum Reader<'a> {
    Sets(RuleLines<'a>),
    Changes(RuleLines<'a>),
    Revokes(SubjectLines<'a>),
    Onlycap(ListWrites<'a>),
    /// The one write that is still to come.
    Single(Option<Result<NamedOp<'a>, BadLine>>),
}

/// The writes that a text spells for a file, in order, up to the first bad line. A contract sees
/// the answers that are still to come.
#[derive(Drop)]
pub struct TextWrites<'a> {
    reader: Reader<'a>,
}

impl<'a> Model for TextWrites<'a> {
    ghost use Rattle.std.specs.Prelude.{List, Result};
    ghost use Rattle.text_spec.specs.declared.BadLine.{BadLine as BadLineOf};
    ghost use Rattle.file_spec.specs.Writes.{NamedWrite};
    ghost use Rattle.smackfs.specs.Left.{left, IsGoodReader};

    ghost Value = { List (Result NamedWrite BadLineOf) };

    ghost view = { λ w. left w.reader };

    ghost invariant = { λ w. IsGoodReader w.reader };
}

fn set_of<'a>(line: RuleLine<'a>) -> NamedOp<'a>
    ensures { named_write result ≡ set_write (fields_of line.entry) }
{
    NamedOp::Set {
        s: line.subject,
        o: line.object,
        m: Modes::of(line.allow.bytes),
    }
}

/// The modes of a field that may be absent.
fn modes_or_none(field: Option<Part<'_>>) -> Modes
    ensures { result ≡ modes_of_field (option_map placed field.entry) }
{
    match field {
        Some(part) => Modes::of(part.bytes),
        None => Modes::NONE,
    }
}

fn change_of<'a>(line: RuleLine<'a>) -> NamedOp<'a>
    ensures { named_write result ≡ change_write (fields_of line.entry) }
{
    NamedOp::Change {
        s: line.subject,
        o: line.object,
        allow: Modes::of(line.allow.bytes),
        deny: modes_or_none(line.deny),
    }
}

fn next_set<'a>(lines: &mut RuleLines<'a>) -> Option<Result<NamedOp<'a>, BadLine>>
    ensures answer { IsNextAnswer (map (on_good set_write) lines.old) (map (on_good set_write) lines.new) result }
    ensures good { IfSome result IsGoodOp }
{
    match lines.next() {
        Some(Ok(line)) => Some(Ok(set_of(line))),
        Some(Err(bad)) => Some(Err(bad)),
        None => None,
    }
}

fn next_change<'a>(lines: &mut RuleLines<'a>) -> Option<Result<NamedOp<'a>, BadLine>>
    ensures answer { IsNextAnswer (map (on_good change_write) lines.old) (map (on_good change_write) lines.new) result }
    ensures good { IfSome result IsGoodOp }
{
    match lines.next() {
        Some(Ok(line)) => Some(Ok(change_of(line))),
        Some(Err(bad)) => Some(Err(bad)),
        None => None,
    }
}

fn next_revoke<'a>(lines: &mut SubjectLines<'a>) -> Option<Result<NamedOp<'a>, BadLine>>
    ensures answer { IsNextAnswer (map (on_good NamedRevoke) lines.old) (map (on_good NamedRevoke) lines.new) result }
    ensures good { IfSome result IsGoodOp }
{
    match lines.next() {
        Some(Ok(s)) => Some(Ok(NamedOp::Revoke { s })),
        Some(Err(bad)) => Some(Err(bad)),
        None => None,
    }
}

fn next_only<'a>(labels: &mut LabelWords<'a>) -> Option<Result<NamedOp<'a>, BadLine>>
    ensures answer { IsNextAnswer (map (on_good NamedAdd) labels.old) (map (on_good NamedAdd) labels.new) result }
    ensures good { IfSome result IsGoodOp }
{
    match labels.next() {
        Some(Ok(l)) => Some(Ok(NamedOp::OnlyAdd { l })),
        Some(Err(bad)) => Some(Err(bad)),
        None => None,
    }
}

fn feeds_before(text: &[u8], at: usize) -> usize
    ensures { result ≡ count_by is_feed (take at text.now) }
{
    text.iter().take(at).filter(|b| **b == b'\n').count()
}

/// The number of the line of a place, from 1.
pub fn line_at(text: &[u8], at: u32) -> u32
    requires { length text.now ≤ 65536 }
    ensures { result ≡ line_of text.now at }
{
    feeds_before(text, at as usize) as u32 + 1
}

/// The label that a text of one word is.
fn label_in<'a>(text: &'a [u8]) -> Result<Part<'a>, BadLine>
    requires { length text.now ≤ 65536 }
    ensures answer { seen_word result ≡ label_of_text text.now }
    ensures good { IsGoodLabel result }
{
    let word = match one_word(text) {
        Ok(word) => word,
        Err(bad) => return Err(bad),
    };
    match Label::fault(word.bytes) {
        None => Ok(word),
        Some(fault) => Err(BadLine {
            line: line_at(text, word.at),
            fault: LineFault::Label(fault),
        }),
    }
}

/// The digit that a word is, up to the last.
fn digit_in(last: u8, word: &[u8]) -> Option<u8>
    requires { last ≤ 9 }
    ensures { result ≡ digit_of_word last word.now }
{
    match word {
        [b] => {
            if *b >= b'0' && *b <= b'0' + last {
                Some(*b - b'0')
            } else {
                None
            }
        }
        _ => None,
    }
}

/// The number up to the last that a text of one word is.
fn number_in(last: u8, text: &[u8]) -> Result<u8, BadLine>
    requires digit { last ≤ 9 }
    requires short { length text.now ≤ 65536 }
    ensures { result ≡ number_of_text last text.now }
{
    let word = match one_word(text) {
        Ok(word) => word,
        Err(bad) => return Err(bad),
    };
    match digit_in(last, word.bytes) {
        Some(n) => Ok(n),
        None => Err(BadLine {
            line: line_at(text, word.at),
            fault: LineFault::Number,
        }),
    }
}

fn ambient_in<'a>(text: &'a [u8]) -> Result<NamedOp<'a>, BadLine>
    requires { length text.now ≤ 65536 }
    ensures answer { seen_op result ≡ on_good NamedAmbient (label_of_text text.now) }
    ensures good { IsGoodOp result }
{
    match label_in(text) {
        Ok(l) => Ok(NamedOp::Ambient { l }),
        Err(bad) => Err(bad),
    }
}

fn ptrace_in<'a>(text: &'a [u8]) -> Result<NamedOp<'a>, BadLine>
    requires { length text.now ≤ 65536 }
    ensures answer { seen_op result ≡ on_good NamedPtrace (number_of_text 2 text.now) }
    ensures good { IsGoodOp result }
{
    match number_in(2, text) {
        Ok(n) => Ok(NamedOp::Ptrace { n }),
        Err(bad) => Err(bad),
    }
}

fn logging_in<'a>(text: &'a [u8]) -> Result<NamedOp<'a>, BadLine>
    requires { length text.now ≤ 65536 }
    ensures answer { seen_op result ≡ on_good NamedLogging (number_of_text 3 text.now) }
    ensures good { IsGoodOp result }
{
    match number_in(3, text) {
        Ok(n) => Ok(NamedOp::Logging { n }),
        Err(bad) => Err(bad),
    }
}

fn next_listed<'a>(list: &mut ListWrites<'a>) -> Option<Result<NamedOp<'a>, BadLine>>
    ensures answer { IsNextAnswer (list_left list.old) (list_left list.new) result }
    ensures good { IfSome result IsGoodOp }
{
    if list.cleared {
        return next_only(&mut list.labels);
    }
    list.cleared = true;
    Some(Ok(NamedOp::OnlyClear))
}

fn next_of<'a>(reader: &mut Reader<'a>) -> Option<Result<NamedOp<'a>, BadLine>>
    requires { IsGoodReader reader.old }
    ensures answer { IsNextAnswer (left reader.old) (left reader.new) result }
    ensures good { IfSome result IsGoodOp }
    ensures kept { IsGoodReader reader.new }
{
    match reader {
        Reader::Sets(lines) => next_set(lines),
        Reader::Changes(lines) => next_change(lines),
        Reader::Revokes(lines) => next_revoke(lines),
        Reader::Onlycap(list) => next_listed(list),
        Reader::Single(answer) => answer.take(),
    }
}

impl<'a> TextWrites<'a> {
    /// The writes of a text of at most 65,536 bytes.
    pub fn of(file: RuleFile, text: &'a [u8]) -> TextWrites<'a>
        requires { length text.now ≤ 65536 }
        ensures { result ≡ write_answers file text.now }
    {
        let reader = match file {
            RuleFile::Load2 => Reader::Sets(RuleLines::of(text, RuleForm::Long)),
            RuleFile::Load => Reader::Sets(RuleLines::of(text, RuleForm::Short)),
            RuleFile::ChangeRule => Reader::Changes(RuleLines::of(text, RuleForm::Change)),
            RuleFile::RevokeSubject => Reader::Revokes(SubjectLines::of(text)),
            RuleFile::Onlycap => Reader::Onlycap(ListWrites {
                cleared: false,
                labels: LabelWords::of(text),
            }),
            RuleFile::Ambient => Reader::Single(Some(ambient_in(text))),
            RuleFile::Ptrace => Reader::Single(Some(ptrace_in(text))),
            RuleFile::Logging => Reader::Single(Some(logging_in(text))),
        };
        TextWrites { reader }
    }

    /// The next write, or the first bad line; None where there is none, and behind a bad one.
    pub fn next(&mut self) -> Option<Result<NamedOp<'a>, BadLine>>
        ensures answer { IsNextAnswer self.old self.new result }
        ensures good { IfSome result IsGoodOp }
    {
        next_of(&mut self.reader)
    }
}

/// The first bad line of a text of at most 65,536 bytes; None where no line is bad.
pub fn first_bad(file: RuleFile, text: &[u8]) -> Option<BadLine>
    requires { length text.now ≤ 65536 }
    ensures { MatchOption result (is_ok (writes_of_text file text.now) ≡ true) (λ bad. writes_of_text file text.now ≡ Err bad) }
{
    let mut writes = TextWrites::of(file, text);
    while let Some(answer) = writes.next() {
        if let Err(bad) = answer {
            return Some(bad);
        }
    }
    None
}

/// Why the writes of a text were not read.
#[derive(Clone, Copy, PartialEq, Eq)]
pub enum WritesFault {
    /// The first bad line of the text.
    Bad(BadLine),
    /// Want of memory.
    Memory,
}

/// The writes of a text of at most 65,536 bytes, read in one pass, or its first bad line.
#[tactic(auto, using(crate::proofs::ReadWrites::read_all, crate::proofs::ReadWrites::read_bad))]
pub fn read_writes<'a>(
    alloc: Global,
    file: RuleFile,
    text: &'a [u8],
) -> Result<NamedOps<'a>, WritesFault>
    requires { length text.now ≤ 65536 }
    ensures writes { IfOk result (λ ops. writes_of_text file text.now ≡ Ok (map named_write ops)) }
    ensures good { IfOk result (λ ops. All (λ op. HasGoodNames (named_write op)) ops) }
    ensures bad { IfErr result (λ fault. IsBadText fault (writes_of_text file text.now)) }
{
    let mut ops = NamedOps::new(alloc);
    let mut writes = TextWrites::of(file, text);
    while let Some(answer) = writes.next() {
        match answer {
            Ok(op) => {
                let Ok(()) = ops.push(op) else {
                    return Err(WritesFault::Memory);
                };
            }
            Err(bad) => return Err(WritesFault::Bad(bad)),
        }
    }
    Ok(ops)
}
