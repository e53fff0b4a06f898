ghost use Rattle.std.specs.Prelude.{◌≡◌, ◌≤◌, ◌<◌, ◌+◌, [], false, length, IfOk, IfSome, MatchOption};
ghost use Rattle.file_spec.specs.Writes.{file_of as file_of_name};
ghost use Rattle.script_spec.specs.Grammar.{most_rows};
ghost use Rattle.script_text.specs.Spelled.{spelled_seen, IsSpelledCall};
ghost use Rattle.script_text.specs.WrittenTexts.{IsText, IsTextOfCall, text_rows, is_batch_file};

use crate::spelled::Spelled;
use call_words::file_word;
use file_spec::SmackFile;
use smackfs::{NamedOps, WritesFault, file_of, read_as, read_writes};
use std::alloc::{AllocError, Global};

/// The most rows of a journal.
const MOST_ROWS: u32 = 1_048_576;

/// What the text of a call spells: its writes, where its file accepts it whole, and whether they are
/// a batch of the journal.
#[derive(Drop)]
pub struct WrittenText<'a> {
    pub ops: NamedOps<'a>,
    pub is_batch: bool,
}

impl<'a> WrittenText<'a> {
    /// No writes.
    fn none(alloc: Global) -> WrittenText<'a>
        ensures ops { result.ops ≡ [] }
        ensures batch { result.is_batch ≡ false }
    {
        WrittenText {
            ops: NamedOps::new(alloc),
            is_batch: false,
        }
    }
}

fn is_rule_file(file: SmackFile) -> bool
    ensures { result ≡ is_batch_file file }
{
    match file {
        SmackFile::Rule(_) => true,
        SmackFile::Own(_) => false,
    }
}

/// What a text spells that is written to a file.
fn read_file<'a>(alloc: Global, name: &[u8], text: &'a [u8]) -> Result<WrittenText<'a>, AllocError>
    requires { length text.now ≤ 65536 }
    ensures { IfOk result (λ t. IsText (file_of_name name.now) text.now t) }
{
    let Some(file) = file_of(name) else {
        return Ok(WrittenText::none(alloc));
    };
    match read_writes(alloc, read_as(file), text) {
        Ok(ops) => Ok(WrittenText {
            ops,
            is_batch: is_rule_file(file),
        }),
        Err(WritesFault::Bad(_)) => Ok(WrittenText::none(alloc)),
        Err(WritesFault::Memory) => Err(AllocError),
    }
}

/// What the text of a call spells.
pub fn read_text<'a>(alloc: Global, call: &Spelled<'_, 'a>) -> Result<WrittenText<'a>, AllocError>
    requires call { IsSpelledCall call.now }
    requires short { length call.now.text.bytes.now ≤ 65536 }
    ensures { IfOk result (λ t. IsTextOfCall (spelled_seen call.now) t) }
{
    match file_word(call.kinds(), call.behind()) {
        Some(name) => read_file(alloc, name.bytes, call.text.bytes),
        None => Ok(WrittenText::none(alloc)),
    }
}

/// The rows of the calls so far and of one more text; None where they are more than 1,048,576.
pub fn rows_with(rows: u32, text: &WrittenText<'_>) -> Option<u32>
    requires { rows ≤ most_rows }
    ensures rows { MatchOption result (most_rows < rows + text_rows text.now) (λ n. n ≡ rows + text_rows text.now) }
    ensures within { IfSome result (λ n. n ≤ most_rows) }
{
    if !text.is_batch {
        return Some(rows);
    }
    let count = text.ops.items().len();
    if count >= (MOST_ROWS - rows) as usize {
        return None;
    }
    Some(rows + count as u32 + 1)
}
