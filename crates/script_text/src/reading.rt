ghost use Rattle.std.specs.Prelude.{◌≡◌, ◌≤◌, ◌<◌, length, map, nat_le, MatchOption, IfSome, OnOk, IfOk, IfErr, All, true, false};
ghost use Rattle.text_spec.specs.Texts.{is_space};
ghost use Rattle.rule_text.specs.Parts.{FitsPlaces, placed, lines_of, part_words, end_of, as_line};
ghost use Rattle.script_spec.specs.Tasks.{change_of};
ghost use Rattle.script_spec.specs.Grammar.{item_fault, script_of, is_skipped as is_skipped_line, most_bytes};
ghost use Rattle.script_text.specs.Spelled.{spelled_seen, IsSpelledCall};
ghost use Rattle.script_text.specs.TaskTables.{tasks_seen, IsWaitThere, IsTable};
ghost use Rattle.script_text.specs.Scripts.{calls_seen, HasFault, HasFewCalls, IsDraft, IsTextOf, IsWithin, IsSpelled, IsAdded, IsItemRead, IsWholeDraft, Fails, item_found, words_fault, limits_fault};

use crate::causes::line_verb;
use crate::labels::add_labels;
use crate::line::Line;
use crate::spelled::Spelled;
use crate::tasks::TaskTable;
use crate::texts::{read_text, rows_with};
use crate::words::{put_words, text_count};
use call_words::word;
use label_table::{Labels, LabelsFault};
use rule_text::{Part, Separator, split_line, split_lines, split_word};
use script_spec::{ScriptFault, What};
use std::alloc::Global;

/// The calls that are read so far, and what they say: their tasks, the rows of a journal that they
/// take, and their label table.
#[derive(Drop)]
pub struct Draft<'a> {
    pub lines: Vec<Line<'a>>,
    pub tasks: TaskTable<'a>,
    pub rows: u32,
    pub labels: Labels,
}

/// The most lines of a script.
const MOST_LINES: u32 = 131_072;

/// The most bytes of one text.
const MOST_TEXT: usize = 65_536;

/// Where reading goes on: the bytes left, and the number of their first line.
#[derive(Clone, Copy)]
pub struct Place<'a> {
    pub rest: Part<'a>,
    pub line: u32,
}

/// The text of a call, which is so many of the lines behind it, and what follows it; None where
/// fewer follow.
fn text_of<'a>(count: u32, after: Part<'a>) -> Option<(Part<'a>, Part<'a>)>
    requires { end_of after ≤ most_bytes }
    ensures text { MatchOption result (nat_le count (length (lines_of after.entry)) ≡ false) (λ _. nat_le count (length (lines_of after.entry)) ≡ true) }
    ensures is { IfSome result (λ p. IsTextOf count after.entry p.0 p.1) }
{
    let Some((text, rest)) = split_lines(count, after) else {
        return None;
    };
    Some((text, rest))
}

/// A line that is neither skipped nor text, and the bytes behind it.
#[derive(Clone, Copy)]
struct Found<'a> {
    number: u32,
    line: Part<'a>,
    after: Part<'a>,
}

/// The call that a line of these words spells, and where reading goes on behind its text.
fn spell<'w, 'a>(
    tasks: &TaskTable<'a>,
    found: Found<'a>,
    words: &'w [Part<'a>],
) -> Result<(Spelled<'w, 'a>, Place<'a>), ScriptFault>
    requires within { IsWithin found }
    requires words { map placed words.now ≡ part_words is_space found.line }
    requires fit { All FitsPlaces words.now }
    requires few { HasFewCalls tasks.now }
    requires table { IsTable tasks.now }
    ensures ok { IfOk result (λ s. IsSpelled (tasks_seen tasks.now) found.entry s.0 s.1) }
    ensures err { IfErr result (λ e. HasFault (words_fault (tasks_seen tasks.now) (item_found found.entry)) e) }
{
    let line = found.number;
    let count = text_count(words);
    let text = text_of(count, found.after);
    let verb = match line_verb(tasks, words, text.is_some()) {
        Ok(verb) => verb,
        Err(cause) => return Err(ScriptFault::Malformed { line, cause }),
    };
    let Some((text, rest)) = text else {
        unreachable!();
    };
    let task = tasks.pid_of(word(words, 0).bytes);
    let call = Spelled {
        verb,
        task: task as u16,
        seq: tasks.calls(task) + 1,
        line,
        words: &words[1..],
        text,
    };
    let place = Place {
        rest,
        line: line + 1 + count,
    };
    Ok((call, place))
}

/// Adds a call, and what it says of tasks, rows and labels.
fn add_call<'a>(
    draft: &mut Draft<'a>,
    alloc: Global,
    call: &Spelled<'_, 'a>,
) -> Result<(), ScriptFault>
    requires draft { IsDraft draft.old }
    requires few { HasFewCalls draft.old.tasks }
    requires call { IsSpelledCall call.now }
    requires task { call.now.task < length (tasks_seen draft.old.tasks).names }
    requires wait { IsWaitThere (tasks_seen draft.old.tasks) (change_of (spelled_seen call.now)) }
    ensures ok { OnOk result (IsAdded draft.old draft.new (spelled_seen call.now)) }
    ensures err { IfErr result (λ e. HasFault (limits_fault (tasks_seen draft.old.tasks) draft.old.rows draft.old.labels (spelled_seen call.now)) e) }
{
    if draft.tasks.is_full_for(call) {
        return Err(ScriptFault::TooLarge { what: What::Tasks });
    }
    if call.text.bytes.len() > MOST_TEXT {
        return Err(ScriptFault::TooLarge { what: What::Text });
    }
    let Ok(text) = read_text(alloc, call) else {
        return Err(ScriptFault::Memory);
    };
    let Some(rows) = rows_with(draft.rows, &text) else {
        return Err(ScriptFault::TooLarge { what: What::Rows });
    };
    draft.rows = rows;
    match add_labels(&mut draft.labels, call, &text) {
        Ok(()) => {}
        Err(LabelsFault::TooMany) => return Err(ScriptFault::TooLarge { what: What::Labels }),
        Err(LabelsFault::Memory) => return Err(ScriptFault::Memory),
    }
    let Ok(()) = draft.tasks.add(call) else {
        return Err(ScriptFault::Memory);
    };
    match draft.lines.push(call.line()) {
        Ok(()) => Ok(()),
        Err(_) => Err(ScriptFault::Memory),
    }
}

/// Reads a line that is neither skipped nor text, and its text: adds the call that it spells. Its
/// words are put where those of other lines were.
fn read_item<'a>(
    draft: &mut Draft<'a>,
    words: &mut Vec<Part<'a>>,
    alloc: Global,
    found: Found<'a>,
) -> Result<Place<'a>, ScriptFault>
    requires within { IsWithin found }
    requires calls { length draft.old.lines.items < found.number }
    requires draft { IsDraft draft.old }
    ensures ok { IfOk result (λ place. IsItemRead draft.old draft.new found.entry place) }
    ensures err { IfErr result (λ e. HasFault (item_fault (calls_seen draft.old) (item_found found.entry)) e) }
{
    if found.number > MOST_LINES {
        return Err(ScriptFault::TooLarge { what: What::Lines });
    }
    let Ok(()) = put_words(words, found.line) else {
        return Err(ScriptFault::Memory);
    };
    let (call, place) = match spell(&draft.tasks, found, words.as_slice()) {
        Ok(spelled) => spelled,
        Err(fault) => return Err(fault),
    };
    if let Err(fault) = add_call(draft, alloc, &call) {
        return Err(fault);
    }
    Ok(place)
}

/// Whether a line is skipped: it is empty or of spaces, or it begins with `#`.
fn is_skipped(line: Part<'_>) -> bool
    requires { FitsPlaces line }
    ensures { result ≡ is_skipped_line (as_line line.entry) }
{
    line.bytes.first() == Some(&b'#') || split_word(line, Separator::Space).is_none()
}

/// Reads the calls of a text, and their labels.
pub fn read_calls<'a>(alloc: Global, text: Part<'a>) -> Result<Draft<'a>, ScriptFault>
    requires { end_of text ≤ most_bytes }
    ensures ok { IfOk result (λ draft. IsWholeDraft draft (lines_of text.entry)) }
    ensures err { IfErr result (λ e. Fails e (script_of (lines_of text.entry))) }
{
    let Ok(labels) = Labels::new(alloc) else {
        return Err(ScriptFault::Memory);
    };
    let Ok(tasks) = TaskTable::new(alloc) else {
        return Err(ScriptFault::Memory);
    };
    let mut draft = Draft {
        lines: Vec::new(alloc),
        tasks,
        rows: 0,
        labels,
    };
    let mut words = Vec::new(alloc);
    let mut place = Place {
        rest: text,
        line: 1,
    };
    while let Some((line, after)) = split_line(place.rest) {
        if is_skipped(line) {
            place = Place {
                rest: after,
                line: place.line + 1,
            };
        } else {
            let found = Found {
                number: place.line,
                line,
                after,
            };
            place = match read_item(&mut draft, &mut words, alloc, found) {
                Ok(next) => next,
                Err(fault) => return Err(fault),
            };
        }
    }
    if place.line > MOST_LINES + 1 {
        return Err(ScriptFault::TooLarge { what: What::Lines });
    }
    Ok(draft)
}
